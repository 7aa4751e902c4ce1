// Frames that ask for the content, by turns and a release, or for a block, over scratch of their own.
use crate::buffer::{Buffer, ROOM, front_mut};
use crate::frame::Wish;
use crate::print::{Lendable, Output, State};
use crate::{sets, turns};
use sfc::{BlockNumber, ColumnCount, Complete, Head, Reason, UnverifiedBlock, block};
use std::{fmt, io};

// One number more than a turn takes.
pub(crate) const NUMBERS_ROOM: usize = 1025;

// The longest output that is asked for with many sets of marks.
const SETS_ROOM: usize = 4096;

// How many bytes and numbers are lent as scratch, and how many columns each turn of a hand-out may do; without a budget there is
// one turn, for all.
#[derive(Clone, Copy)]
pub(crate) struct Lent {
    pub(crate) bytes: usize,
    pub(crate) numbers: usize,
    pub(crate) budget: Option<u32>,
}

// What a session holds of a file.
#[derive(Clone, Copy)]
pub(crate) struct Held<'a> {
    pub(crate) head: Head,
    pub(crate) store: &'a [u8],
    pub(crate) marks: &'a [u8],
}

// The memory that is lent for one answer.
#[derive(Drop)]
pub(crate) struct Bench<'a> {
    pub(crate) scratch: &'a mut [u8],
    pub(crate) numbers: &'a mut [u16],
    pub(crate) out: &'a mut [u8],
}

impl Bench<'_> {
    // A pattern in all that may be written to.
    fn spread(&mut self) {
        self.scratch.fill(u8::PATTERN);
        self.numbers.fill(u16::PATTERN);
        self.out.fill(u8::PATTERN);
    }
}

// What is asked for: the content, by turns of a budget, or a block.
#[derive(Clone, Copy)]
pub(crate) enum Target {
    Content(Option<u32>),
    Block(BlockNumber),
}

// What was answered in the end; and of a hand-out the columns that are finished after it, and how many turns did any.
#[derive(Clone, Copy)]
pub(crate) enum Told {
    Content {
        handed: Result<Complete, Reason>,
        finished: ColumnCount,
        turns: u32,
    },
    Block(Result<UnverifiedBlock, Reason>),
}

impl Told {
    pub(crate) fn refused(&self) -> Option<Reason> {
        match *self {
            Told::Content { handed, .. } => handed.err(),
            Told::Block(given) => given.err(),
        }
    }
}

impl fmt::Display for Told {
    fn fmt<W: fmt::Write>(&self, f: &mut fmt::Formatter<W>) -> fmt::Result {
        match *self {
            Told::Content {
                handed: Ok(complete),
                ..
            } => write!(f, "complete {}", complete.end.0),
            Told::Block(Ok(given)) => write!(f, "unverified {} {}", given.number.0, given.at.0),
            Told::Content {
                handed: Err(reason),
                ..
            }
            | Told::Block(Err(reason)) => write!(f, "{}", u8::from(reason)),
        }
    }
}

// One answer, with a pattern before it in all that may be written to.
pub(crate) fn call(target: Target, held: Held<'_>, bench: &mut Bench<'_>) -> Told {
    bench.spread();
    match target {
        Target::Content(budget) => turns::hand_out(held, budget, bench),
        Target::Block(number) => Told::Block(block(
            held.head,
            number,
            held.store,
            held.marks,
            bench.scratch,
            bench.numbers,
            bench.out,
        )),
    }
}

// The answer, the output, the scratch, and what is told of the turns.
fn one(rt: &impl Print, target: Target, held: Held<'_>, bench: &mut Bench<'_>) -> io::Result<()> {
    let told = call(target, held, bench);
    let scratch = State::of(bench.scratch);
    let numbers = State::of(bench.numbers);
    print!(rt;
        "{told}{} scratch {scratch} numbers {numbers}",
        Output(bench.out)
    )?;
    if let Told::Content {
        finished,
        turns,
        ..
    } = told
    {
        print!(rt; " finished {} turns {turns}", finished.0)?;
    }
    println!(rt)
}

pub(crate) fn serve(rt: &impl Print, wish: Wish, held: Held<'_>, lent: Lent) -> io::Result<()> {
    let content = Target::Content(lent.budget);
    let (target, room, sets) = match wish {
        Wish::Content { room } => (content, room, None),
        Wish::Block { number, room } => (Target::Block(number), room, None),
        Wish::ContentOfSets { room, sets } => (content, room.min(SETS_ROOM), Some(sets)),
        Wish::BlockOfSets { number, sets } => {
            let room = (held.head.s as usize + 1).min(SETS_ROOM);
            (Target::Block(number), room, Some(sets))
        }
    };
    let mut scratch = Buffer::<ROOM>::patterned(lent.bytes);
    let mut numbers = [u16::PATTERN; NUMBERS_ROOM];
    let mut out = Buffer::<ROOM>::patterned(room);
    let mut bench = Bench {
        scratch: scratch.as_mut_slice(),
        numbers: front_mut(&mut numbers, lent.numbers),
        out: out.as_mut_slice(),
    };
    match sets {
        None => one(rt, target, held, &mut bench),
        Some(sets) => sets::sweep(rt, sets, target, held, &mut bench),
    }
}
