// How answers, outputs and lent memory are printed.
use sfc::{ColumnCount, Reason};
use std::{fmt, io};

// Each byte as two digits. blake3_vectors and cauchy_vectors have such a type: the programs share no crate of their own.
#[derive(Clone, Copy)]
pub(crate) struct Hex<'a>(pub(crate) &'a [u8]);

impl fmt::Display for Hex<'_> {
    fn fmt<W: fmt::Write>(&self, f: &mut fmt::Formatter<W>) -> fmt::Result {
        for byte in self.0 {
            write!(f, "{byte:02x}")?;
        }
        Ok(())
    }
}

// Each number as eight digits, after a space. A format is a literal, so this stands beside the bytes' own.
#[derive(Clone, Copy)]
pub(crate) struct Words<'a>(pub(crate) &'a [u32]);

impl fmt::Display for Words<'_> {
    fn fmt<W: fmt::Write>(&self, f: &mut fmt::Formatter<W>) -> fmt::Result {
        for word in self.0 {
            write!(f, " {word:08x}")?;
        }
        Ok(())
    }
}

// A short output byte by byte, and the hash of a longer one.
#[derive(Clone, Copy)]
pub(crate) struct Output<'a>(pub(crate) &'a [u8]);

impl fmt::Display for Output<'_> {
    fn fmt<W: fmt::Write>(&self, f: &mut fmt::Formatter<W>) -> fmt::Result {
        if self.0.len() <= 64 {
            return write!(f, " {}", Hex(self.0));
        }
        write!(f, " hash {}", Hex(&blake3::hash(self.0)))
    }
}

// The scratch of a session: its length, and that it is zeros or, as an output, what it has; and the columns finished in it.
#[derive(Clone, Copy)]
pub(crate) struct Rebuilt<'a> {
    pub(crate) scratch: &'a [u8],
    pub(crate) finished: ColumnCount,
}

impl fmt::Display for Rebuilt<'_> {
    fn fmt<W: fmt::Write>(&self, f: &mut fmt::Formatter<W>) -> fmt::Result {
        write!(f, " scratch {}", self.scratch.len())?;
        match State::of(self.scratch) {
            State::Zeros => f.write_str(" zeros")?,
            _ => write!(f, "{}", Output(self.scratch))?,
        }
        write!(f, " finished {}", self.finished.0)
    }
}

// What lent memory is made of, and the pattern that it has before a call.
pub(crate) trait Lendable: little::Zero + PartialEq {
    const PATTERN: Self;
}

impl Lendable for u8 {
    const PATTERN: u8 = 0xA5;
}

impl Lendable for u16 {
    const PATTERN: u16 = 0xA5A5;
}

impl Lendable for u32 {
    const PATTERN: u32 = 0xA5A5A5A5;
}

// What became of lent memory: all zeros, as before the call, or neither.
#[derive(Clone, Copy, PartialEq, Eq)]
pub(crate) enum State {
    Zeros,
    Kept,
    Mixed,
}

impl State {
    pub(crate) fn of<T: Lendable>(items: &[T]) -> State {
        if little::are_all(items, T::ZERO) {
            State::Zeros
        } else if little::are_all(items, T::PATTERN) {
            State::Kept
        } else {
            State::Mixed
        }
    }
}

impl fmt::Display for State {
    fn fmt<W: fmt::Write>(&self, f: &mut fmt::Formatter<W>) -> fmt::Result {
        f.write_str(match self {
            State::Zeros => "zeros",
            State::Kept => "kept",
            State::Mixed => "mixed",
        })
    }
}

// What a call gave, as the caller tells it, or the number of its refusal.
pub(crate) fn answer<T, F: FnOnce(T) -> io::Result<()>>(
    rt: &impl Print,
    answer: Result<T, Reason>,
    tell: F,
) -> io::Result<()>
    requires { F.IsAlwaysCallable tell }
{
    match answer {
        Ok(given) => tell(given),
        Err(reason) => print!(rt; "{}", u8::from(reason)),
    }
}
