// The marks of a session: what each may be, and how many say held or barred.
ghost use Rattle.std.specs.Prelude.{◌≡◌};
ghost use Rattle.sfc.specs.session.Marks.{barred_count, marks_known};
ghost use Rattle.sfc.specs.session.Lent.{count_marks};

use crate::answer::checks::refuse_if;
use crate::answer::reason::Reason;
use crate::format::header::Head;

// An index of which nothing came, or whose block is held, or that met two payloads and is closed. A mark is a byte of lent
// memory, which may be any byte, and so no enum.
pub(crate) const ABSENT: u8 = 0;

pub(crate) const HELD: u8 = 1;

pub(crate) const BARRED: u8 = 2;

const KINDS: u8 = 3;

// How many indices are held, and how many barred.
#[derive(Clone, Copy, PartialEq, Eq, Debug)]
pub struct MarksCounted {
    pub held: usize,
    pub barred: usize,
}

// Whether each mark is one of the three. All are looked at, here and in the count, so that the compiler does many at a time: each
// call asks this of each mark, and std's `all` leaves early.
pub(crate) fn are_marks_known(marks: &[u8]) -> bool
    ensures { result ≡ marks_known marks.now }
{
    let mut known = true;
    for mark in marks {
        known &= *mark < KINDS;
    }
    known
}

fn barred_count(marks: &[u8]) -> usize
    ensures { result ≡ barred_count marks.now }
{
    let mut barred = 0;
    for mark in marks {
        if *mark == BARRED {
            barred += 1;
        }
    }
    barred
}

// What a session came to, in numbers.
pub fn count_marks(h: Head, marks: &[u8]) -> Result<MarksCounted, Reason>
    ensures { result ≡ count_marks h marks.now }
{
    refuse_if(h.is_marks_wrong(marks), Reason::Lent)?;
    Ok(MarksCounted {
        held: cauchy::held_count(marks),
        barred: barred_count(marks),
    })
}
