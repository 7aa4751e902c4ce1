// Frames that ask what a session knows: its prefix, its counts, its missing list and its note.
use crate::buffer::{Buffer, ROOM, front_mut};
use crate::frame::Known;
use crate::hand_out::Held;
use crate::note::LONGEST_LIST;
use crate::print::{self, Hex, Lendable, Words};
use sfc::{Head, Reason, count_marks, list_missing, list_ranges, prefix, write_note};
use std::io;

fn count(rt: &impl Print, head: Head, marks: &[u8]) -> io::Result<()> {
    print::answer(rt, count_marks(head, marks), |counted| {
        print!(rt; "held {} barred {}", counted.held, counted.barred)
    })?;
    println!(rt)
}

fn give(rt: &impl Print, held: Held<'_>, room: usize) -> io::Result<()> {
    let mut out = Buffer::<ROOM>::patterned(room);
    let given = prefix(held.head, held.store, held.marks, out.as_mut_slice());
    print::answer(
        rt,
        given,
        |prefix| print!(rt; "unverified {} {}", prefix.blocks.0, prefix.end.0),
    )?;
    println!(rt; " {}", Hex(out.as_slice()))
}

fn write(rt: &impl Print, held: Held<'_>, room: usize) -> io::Result<()> {
    let mut out = Buffer::<ROOM>::patterned(room);
    let written = write_note(held.head, held.marks, out.as_mut_slice());
    print::answer(rt, written, |length| print!(rt; "note {length}"))?;
    println!(rt; " {}", Hex(out.as_slice()))
}

// What is missing, as `list_into` lists it in an output of that many numbers.
fn list<L: FnOnce(&mut [u32]) -> Result<usize, Reason>>(
    rt: &impl Print,
    room: usize,
    list_into: L,
) -> io::Result<()>
    requires { L.IsAlwaysCallable list_into }
{
    let mut numbers = [u32::PATTERN; LONGEST_LIST];
    let out = front_mut(&mut numbers, room);
    print::answer(rt, list_into(out), |count| print!(rt; "listed {count}"))?;
    println!(rt; "{}", Words(out))
}

pub(crate) fn serve(rt: &impl Print, ask: Known, held: Held<'_>) -> io::Result<()> {
    match ask {
        Known::Prefix { room } => give(rt, held, room),
        Known::WriteNote { room } => write(rt, held, room),
        Known::Missing { room } => list(rt, room, |out| list_missing(held.head, held.marks, out)),
        Known::Ranges { room } => list(rt, room, |out| list_ranges(held.head, held.marks, out)),
        Known::CountMarks => count(rt, held.head, held.marks),
    }
}
