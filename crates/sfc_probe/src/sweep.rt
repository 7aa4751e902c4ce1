// Sweeps over many inputs that differ at one place: neighbouring places with the same answer are printed as one line.
use crate::buffer::{ROOM, copy, front};
use crate::edit;
use sfc::{BrokenChunk, BytePlace, Reason};
use std::ops::Range;
use std::{fmt, io};

// What stands after a number: nothing, or where the input broke. That may be nowhere, or the very place that a sweep has come to:
// four cases, where an Option has two.
#[derive(Clone, Copy, PartialEq, Eq)]
pub(crate) enum Spot {
    Untold,
    Nowhere,
    Here,
    At(u32),
}

impl Spot {
    // As it is told in a sweep that has come to `here`.
    fn seen_from(self, here: usize) -> Spot {
        match self {
            Spot::At(place) if place as usize == here => Spot::Here,
            other => other,
        }
    }
}

impl From<Option<BytePlace>> for Spot {
    fn from(place: Option<BytePlace>) -> Spot {
        place.map_or(Spot::Nowhere, |place| Spot::At(place.0))
    }
}

impl fmt::Display for Spot {
    fn fmt<W: fmt::Write>(&self, f: &mut fmt::Formatter<W>) -> fmt::Result {
        match self {
            Spot::Untold => Ok(()),
            Spot::Nowhere => f.write_str(" nowhere"),
            Spot::Here => f.write_str(" here"),
            Spot::At(place) => write!(f, " at {place}"),
        }
    }
}

// The refusal, or none of an accepted input, and where it is told that the input broke.
#[derive(Clone, Copy, PartialEq, Eq)]
pub(crate) struct Finding {
    refused: Option<Reason>,
    spot: Spot,
}

impl From<Option<Reason>> for Finding {
    fn from(refused: Option<Reason>) -> Finding {
        Finding {
            refused,
            spot: Spot::Untold,
        }
    }
}

impl From<Option<BrokenChunk>> for Finding {
    fn from(refused: Option<BrokenChunk>) -> Finding {
        match refused {
            Some(broken) => Finding {
                refused: Some(broken.reason),
                spot: Spot::from(broken.spot),
            },
            None => Finding::from(None::<Reason>),
        }
    }
}

impl fmt::Display for Finding {
    fn fmt<W: fmt::Write>(&self, f: &mut fmt::Formatter<W>) -> fmt::Result {
        write!(f, "{}{}", self.refused.map_or(0, u8::from), self.spot)
    }
}

// The places from `first` on, which have one answer.
#[derive(Clone, Copy)]
struct Run {
    first: usize,
    finding: Finding,
}

impl Run {
    fn print(self, rt: &impl Print, end: usize) -> io::Result<()> {
        println!(rt; "{}..{end} {}", self.first, self.finding)
    }

    // The run that a place is in: another answer ends the one before, and begins the next.
    fn at(rt: &impl Print, before: Option<Run>, place: usize, finding: Finding) -> io::Result<Run> {
        match before {
            Some(run) if run.finding == finding => return Ok(run),
            Some(run) => run.print(rt, place)?,
            None => {}
        }
        Ok(Run {
            first: place,
            finding,
        })
    }
}

// The answer at each place, for which the bytes are lent.
pub(crate) fn sweep<F: Fn(&mut [u8], usize) -> Finding>(
    rt: &impl Print,
    bytes: &mut [u8],
    places: Range<usize>,
    answer: F,
) -> io::Result<()>
    requires { F.IsAlwaysCallable answer }
{
    let end = places.end;
    let mut last = None;
    for place in places {
        let answered = answer(bytes, place);
        let finding = Finding {
            refused: answered.refused,
            spot: answered.spot.seen_from(place),
        };
        last = Some(Run::at(rt, last, place, finding)?);
    }
    if let Some(run) = last {
        run.print(rt, end)?;
    }
    Ok(())
}

// The answer with each byte changed by exclusive or, which is then as it was; to answer may change all bytes.
pub(crate) fn sweep_bytes<A: Fn(&mut [u8]) -> Finding>(
    rt: &impl Print,
    bytes: &mut [u8],
    places: Range<usize>,
    mask: u8,
    answer: A,
) -> io::Result<()>
    requires { A.IsAlwaysCallable answer }
{
    let mut before = [0; ROOM];
    copy(bytes, &mut before);
    sweep(rt, bytes, places, |bytes, place| {
        edit::spoil(bytes, place, mask);
        let finding = answer(bytes);
        copy(&before, bytes);
        finding
    })
}

// The answer for each length of the bytes that are there.
pub(crate) fn sweep_lengths<A: Fn(&[u8]) -> Finding>(
    rt: &impl Print,
    bytes: &mut [u8],
    lengths: Range<usize>,
    answer: A,
) -> io::Result<()>
    requires { A.IsAlwaysCallable answer }
{
    sweep(
        rt,
        bytes,
        lengths,
        |bytes, length| answer(front(bytes, length)),
    )
}
