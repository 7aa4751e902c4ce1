// The tallies of a session: how many offers were fresh, repeats, or refused by each number from 30 to 42.
ghost use Rattle.std.specs.Prelude.{◌≡◌, ◌+◌, ◌<◌, ◌≤◌};
ghost use Rattle.sfc.specs.answer.Numbers.{number_of};
ghost use Rattle.sfc.specs.session.Tallies.{no_tallies, sum, total, tally_full, counted_refusal};

use crate::answer::reason::Reason;

// The numbers that are counted, from the first on.
const FIRST_COUNTED: usize = 30;

const COUNTED: usize = 13;

// So many offers are counted in all; then 43.
const MOST_OFFERS: u64 = 4294967295;

// Refusals by number k are counted at k - 30: an array, handed over by value, as document 01 has it.
#[derive(Clone, Copy)]
pub struct Tallies {
    pub fresh: u32,
    pub repeat: u32,
    pub refused: [u32; COUNTED],
}

impl Tallies {
    // The tallies of a session that starts.
    pub fn new() -> Tallies
        ensures { result ≡ no_tallies }
    {
        let refused = [0u32; COUNTED];
        Tallies {
            fresh: 0,
            repeat: 0,
            refused,
        }
    }
}

fn sum_of(counts: [u32; COUNTED]) -> u64
    ensures { (result ≡ sum counts) × (result ≤ 55834574835) }
{
    counts.iter().map(|count| u64::from(*count)).sum()
}

// 43
pub(crate) fn is_full(t: Tallies) -> bool
    ensures { result ≡ tally_full t }
{
    let refused = t.refused;
    MOST_OFFERS <= t.fresh as u64 + t.repeat as u64 + sum_of(refused)
}

// One refusal more, of those that are counted.
pub(crate) fn with_refusal(t: Tallies, reason: Reason) -> Tallies
    requires { (total t < 4294967295) × (30 ≤ number_of reason) × (number_of reason ≤ 42) }
    ensures { result ≡ counted_refusal t (number_of reason) }
{
    let mut next = t;
    let at = u8::from(reason) as usize - FIRST_COUNTED;
    next.refused[at] = next.refused[at] + 1;
    next
}

pub(crate) fn with_fresh(t: Tallies) -> Tallies
    requires { total t < 4294967295 }
    ensures { result ≡ record { fresh = t.fresh + 1; repeat = t.repeat; refused = t.refused } }
{
    Tallies {
        fresh: t.fresh + 1,
        ..t
    }
}

pub(crate) fn with_repeat(t: Tallies) -> Tallies
    requires { total t < 4294967295 }
    ensures { result ≡ record { fresh = t.fresh; repeat = t.repeat + 1; refused = t.refused } }
{
    Tallies {
        repeat: t.repeat + 1,
        ..t
    }
}
