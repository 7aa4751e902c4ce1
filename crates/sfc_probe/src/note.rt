// Frames that read the file as a resend note.
use crate::buffer::front_mut;
use crate::edit;
use crate::frame::OnNote;
use crate::print::{self, Hex, Lendable, Words};
use crate::sweep::{Finding, sweep, sweep_lengths};
use sfc::read_note;
use std::io;

// As many numbers as the longest missing list has.
pub(crate) const LONGEST_LIST: usize = 1024;

// Reads into an output of that many numbers. With a refusal there are no ranges, and the UUID is all zeros.
fn read(rt: &impl Print, note: &[u8], room: usize) -> io::Result<()> {
    let mut numbers = [u32::PATTERN; LONGEST_LIST];
    let out = front_mut(&mut numbers, room);
    let read = read_note(note, out);
    let (ranges, uuid) = read.map_or((0, [0; 16]), |read| {
        let uuid = read.uuid;
        (read.ranges, uuid)
    });
    print::answer(rt, read, |_| print!(rt; "good"))?;
    println!(rt; " ranges {ranges} uuid {}{}", Hex(&uuid), Words(out))
}

fn answer(note: &[u8]) -> Finding {
    let mut out = [u32::PATTERN; LONGEST_LIST];
    Finding::from(read_note(note, &mut out).err())
}

// Each value of a byte, which is then as it was.
fn sweep_values(rt: &impl Print, note: &mut [u8], at: usize) -> io::Result<()> {
    let old = little::byte_at(note, at);
    sweep(rt, note, 0..256, |note, value| {
        edit::set_byte(note, at, (value & 0xFF) as u8);
        answer(note)
    })?;
    edit::set_byte(note, at, old);
    Ok(())
}

pub(crate) fn serve(rt: &impl Print, ask: OnNote, note: &mut [u8]) -> io::Result<()> {
    match ask {
        OnNote::Read { room } => read(rt, note, room),
        OnNote::Values { at } => sweep_values(rt, note, at),
        OnNote::Lengths => {
            let length = note.len();
            sweep_lengths(rt, note, 0..length, answer)
        }
    }
}
