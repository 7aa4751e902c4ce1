// Frames that rebuild in turns and release, one call at a time, and the hand-out that such calls come to.
use crate::buffer::{Buffer, ROOM, front, front_mut};
use crate::edit;
use crate::frame::Rebuild;
use crate::hand_out::{Bench, Held, NUMBERS_ROOM, Told};
use crate::print::{self, Lendable, Output, State};
use crate::session::Session;
use sfc::{ColumnCount, Head, rebuild_turn, release};
use std::io;

// No block has as many word columns, so a hand-out has fewer turns.
const MOST_TURNS: u32 = 2049;

// How far the turns of a hand-out came: the finished columns, and how many turns did any.
#[derive(Clone, Copy)]
struct Progress {
    finished: ColumnCount,
    turns: u32,
}

// Turns from column 0 on, at most so many. One that is refused, or does less than its budget, leaves nothing to do.
fn take_turns(held: Held<'_>, budget: u32, most: u32, bench: &mut Bench<'_>) -> Progress {
    let mut progress = Progress {
        finished: ColumnCount(0),
        turns: 0,
    };
    for turn in 0..most {
        let answer = rebuild_turn(
            held.head,
            held.store,
            held.marks,
            bench.scratch,
            bench.numbers,
            progress.finished,
            budget,
        );
        progress.finished = answer.finished;
        let did = answer.turned.map_or(0, |count| count.0);
        if 0 < did {
            progress.turns = turn + 1;
        }
        if did != budget {
            break;
        }
    }
    progress
}

// Turns until one is refused or nothing is left, and a release, whatever they came to.
pub(crate) fn hand_out(held: Held<'_>, budget: Option<u32>, bench: &mut Bench<'_>) -> Told {
    let progress = match budget {
        None => take_turns(held, held.head.s / 2, 1, bench),
        Some(columns) => take_turns(held, columns, MOST_TURNS, bench),
    };
    let released = release(
        held.head,
        held.store,
        held.marks,
        bench.scratch,
        progress.finished,
        bench.out,
    );
    Told::Content {
        handed: released.handed,
        finished: released.finished,
        turns: progress.turns,
    }
}

// A turn of so many columns on the session's scratch.
fn turn(rt: &impl Print, session: &mut Session, head: Head, budget: u32) -> io::Result<()> {
    let mut room = [u16::PATTERN; NUMBERS_ROOM];
    let numbers = front_mut(&mut room, session.lent.numbers);
    let answer = rebuild_turn(
        head,
        session.store.as_slice(),
        session.marks.as_slice(),
        session.scratch.as_mut_slice(),
        numbers,
        session.finished,
        budget,
    );
    session.finished = answer.finished;
    print::answer(rt, answer.turned, |count| print!(rt; "did {}", count.0))?;
    println!(rt; "{} numbers {}", session.rebuilt(), State::of(numbers))
}

// A release into an output of so many bytes.
fn release_into(rt: &impl Print, session: &mut Session, head: Head, room: usize) -> io::Result<()> {
    let mut out = Buffer::<ROOM>::patterned(room);
    let released = release(
        head,
        session.store.as_slice(),
        session.marks.as_slice(),
        session.scratch.as_mut_slice(),
        session.finished,
        out.as_mut_slice(),
    );
    session.finished = released.finished;
    print::answer(
        rt,
        released.handed,
        |complete| print!(rt; "complete {}", complete.end.0),
    )?;
    println!(rt; "{}{}", Output(out.as_slice()), session.rebuilt())
}

pub(crate) fn serve(
    rt: &impl Print,
    ask: Rebuild,
    session: &mut Session,
    head: Head,
    file: &[u8],
) -> io::Result<()> {
    match ask {
        Rebuild::Fill {
            count,
            value,
            finished,
        } => {
            session.scratch.fill(count, value);
            session.finished = finished;
        }
        Rebuild::Load { count, finished } => {
            session.scratch.load(front(file, count));
            session.finished = finished;
        }
        Rebuild::Spoil { at, mask } => edit::spoil(session.scratch.as_mut_slice(), at, mask),
        Rebuild::Finished(finished) => session.finished = finished,
        Rebuild::Turn { budget } => turn(rt, session, head, budget)?,
        Rebuild::Release { room } => release_into(rt, session, head, room)?,
    }
    Ok(())
}
