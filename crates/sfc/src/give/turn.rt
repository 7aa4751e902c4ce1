// A turn of the rebuild: some word columns of the missing data blocks go into scratch, so that a console is never kept waiting
// for all of them.
ghost use Rattle.std.specs.Prelude.{◌≡◌, ◌/◌, ◌≤◌, length, Err};
ghost use Rattle.sfc.specs.give.Turns.{columns_left, turning_of, turn};

use crate::answer::places::ColumnCount;
use crate::answer::reason::Reason;
use crate::format::header::Head;
use crate::session::lent::ELEMENTS;
use cauchy::{Columns, Refusal, Shape};

// How many columns were rebuilt, the budget or all that were left where they are fewer; and how many are finished by now, which a
// refusal tells too: so a turn answers with both, and stops at a check by `refused` and not by `?`.
#[derive(Clone, Copy)]
pub struct TurnAnswer {
    pub turned: Result<ColumnCount, Reason>,
    pub finished: ColumnCount,
}

// With no data block missing there is nothing to rebuild, whatever is finished.
pub(crate) fn columns_left(n: u32, s: u32, marks: &[u8], finished: u32) -> u32
    requires { (n ≤ length marks.now) × (finished ≤ s / 2) }
    ensures { result ≡ columns_left n s marks.now finished }
{
    let data = n as usize;
    if cauchy::held_count(&marks[..data]) == data {
        return 0;
    }
    s / 2 - finished
}

fn refused(reason: Reason, finished: ColumnCount) -> TurnAnswer
    ensures { result ≡ record { turned = Err reason; finished = finished } }
{
    TurnAnswer {
        turned: Err(reason),
        finished,
    }
}

// A refusal changes nothing, `finished` included. Past it the room for numbers ends as zeros, also where no column was done.
// Memory is lent one by one: session/lent.rt says why.
pub fn rebuild_turn(
    h: Head,
    store: &[u8],
    marks: &[u8],
    scratch: &mut [u8],
    numbers: &mut [u16],
    finished: ColumnCount,
    budget: u32,
) -> TurnAnswer
    ensures { turning_of result.turned result.finished.0 scratch.new numbers.new ≡ turn h store.now marks.now scratch.old numbers.old finished.0 budget }
{
    let first = finished.0;
    if h.is_columns_wrong(store, marks, scratch, first) {
        return refused(Reason::Lent, finished);
    }
    if numbers.len() != ELEMENTS {
        return refused(Reason::Lent, finished);
    }
    let left = columns_left(h.n, h.s, marks, first);
    let count = little::least(budget as usize, left as usize);
    let shape = Shape {
        n: h.n as usize,
        m: h.m as usize,
        s: h.s as usize,
    };
    let from = first as usize;
    let columns = Columns { first: from, count };
    match cauchy::rebuild(shape, store, marks, scratch, numbers, columns) {
        Ok(()) => {
            let done = count as u32;
            TurnAnswer {
                turned: Ok(ColumnCount(done)),
                finished: ColumnCount(first + done),
            }
        }
        Err(Refusal::TooFew) => refused(Reason::Few, finished),
        Err(Refusal::BadShape) => refused(Reason::Lent, finished),
    }
}
