// The calls of `cauchy` under C names, for programs in other languages and for measuring: an answer goes out as document 01's
// number, since C has no `Result`, and numbers and pieces of memory come in one by one, since C has no struct of slices.
#![tactic(auto)]

ghost use Rattle.std.specs.Prelude.{◌≡◌, Err};
ghost use Rattle.cauchy.specs.Calls.{recovery_spec, four_spec, rebuild_all_spec};
ghost use Rattle.cauchy_native.specs.Number.{number_of, recovery_left, numbered_recovery, rebuild_left, numbered_rebuild};

use cauchy::{Refusal, Shape, rebuild_all, recovery, recovery_four};

// 71 for a wrong shape, 50 for too few held.
fn refusal_number(refusal: Refusal) -> u8
    ensures { result ≡ number_of (Err refusal) }
{
    match refusal {
        Refusal::BadShape => 71,
        Refusal::TooFew => 50,
    }
}

// 0 for done, and else the refusal's number.
fn number(answer: Result<(), Refusal>) -> u8
    ensures { result ≡ number_of answer }
{
    match answer {
        Ok(()) => 0,
        Err(refusal) => refusal_number(refusal),
    }
}

// Recovery block k into `out`.
#[unsafe(no_mangle)]
pub extern "C" fn cauchy_recovery(
    n: usize,
    m: usize,
    s: usize,
    k: usize,
    store: &[u8],
    out: &mut [u8],
) -> u8
    ensures { recovery_left out.new result ≡ numbered_recovery (recovery_spec n m s k store.now out.old) }
{
    number(recovery(Shape { n, m, s }, k, store, out))
}

// The recovery blocks from k on, up to four, into `out`; the last data block lies apart.
#[unsafe(no_mangle)]
pub extern "C" fn cauchy_recovery_four(
    n: usize,
    m: usize,
    s: usize,
    k: usize,
    front: &[u8],
    last: &[u8],
    out: &mut [u8],
) -> u8
    ensures { recovery_left out.new result ≡ numbered_recovery (four_spec n m s k front.now last.now out.old) }
{
    number(recovery_four(Shape { n, m, s }, k, front, last, out))
}

// The missing data blocks, rising, into scratch.
#[unsafe(no_mangle)]
pub extern "C" fn cauchy_rebuild_all(
    n: usize,
    m: usize,
    s: usize,
    store: &[u8],
    marks: &[u8],
    scratch: &mut [u8],
    numbers: &mut [u16],
) -> u8
    ensures { rebuild_left scratch.new numbers.new result ≡ numbered_rebuild (rebuild_all_spec n m s marks.now store.now scratch.old numbers.old) }
{
    number(rebuild_all(Shape { n, m, s }, store, marks, scratch, numbers))
}
