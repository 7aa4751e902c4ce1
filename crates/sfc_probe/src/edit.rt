// Frames that load, keep, cut and change the file.
ghost use Rattle.std.specs.Io.{ReadsAtMost};

use crate::buffer::{Buffer, ROOM, after, after_mut, copy, front, front_mut};
use crate::frame::{Edit, Part};
use crate::{input, write};
use std::io;

// Reads up to `count` bytes of input to the front of the buffer, as far as it goes, and answers how many.
pub(crate) fn fill(rt: &impl Input, count: usize, buffer: &mut [u8]) -> io::Result<usize>
    ensures { ReadsAtMost result buffer.new }
{
    let end = count.min(buffer.len());
    input::read_full(rt, &mut buffer[..end])
}

// As much of a part as there is; twice, as `front` is.
pub(crate) fn part_of(bytes: &[u8], part: Part) -> &[u8] {
    front(after(bytes, part.start), part.length)
}

pub(crate) fn part_of_mut(bytes: &mut [u8], part: Part) -> &mut [u8] {
    front_mut(after_mut(bytes, part.start), part.length)
}

pub(crate) fn set_byte(bytes: &mut [u8], at: usize, value: u8) {
    if let Some(byte) = bytes.get_mut(at) {
        *byte = value;
    }
}

// Changes a byte by exclusive or, where it is there.
pub(crate) fn spoil(bytes: &mut [u8], at: usize, mask: u8) {
    if let Some(byte) = bytes.get_mut(at) {
        *byte ^= mask;
    }
}

// Puts the hash of the header region into the trailer, where the file has room for both.
pub(crate) fn seal_header(file: &mut [u8]) {
    let length = little::read32(file, 8) as usize;
    if file.len() < length + 76 {
        return;
    }
    let hash = blake3::hash(&file[8..12 + length]);
    let at = file.len() - 56;
    copy(&hash, &mut file[at..]);
}

// Puts the hash of the chunk at the front into its trailer, where all of it is there.
pub(crate) fn seal_chunk(chunk: &mut [u8]) {
    let length = little::read32(chunk, 28) as usize;
    if chunk.len() < 84 + length {
        return;
    }
    let (hashed, trailer) = chunk.split_at_mut(48 + length);
    copy(&blake3::hash(hashed), trailer);
}

// The bytes of a part after the file's end, as far as the buffer goes.
fn repeat(file: &mut Buffer<ROOM>, part: Part) {
    let mut repeated = Buffer::<ROOM>::new();
    repeated.load(part_of(file.as_slice(), part));
    file.extend(repeated.as_slice());
}

// Writes into an output of so many bytes; a file that was written becomes the file.
fn become_written(rt: &impl Print, file: &mut Buffer<ROOM>, room: usize) -> io::Result<()> {
    let mut out = Buffer::<ROOM>::patterned(room);
    let length = write::from_inputs(rt, file.as_slice(), out.as_mut_slice())?;
    if let Some(length) = length {
        out.truncate(length);
        file.load(out.as_slice());
    }
    Ok(())
}

pub(crate) fn serve(
    rt: &(impl Print + Input),
    edit: Edit,
    file: &mut Buffer<ROOM>,
    kept: &mut Buffer<ROOM>,
) -> io::Result<()> {
    match edit {
        Edit::Load { count } => {
            file.read(rt, count)?;
            kept.load(file.as_slice());
        }
        Edit::Keep => kept.load(file.as_slice()),
        Edit::Restore => file.load(kept.as_slice()),
        Edit::Cut { length } => file.truncate(length),
        Edit::Grow { count, value } => file.grow(count, value),
        Edit::Repeat(part) => repeat(file, part),
        Edit::SetByte { at, value } => set_byte(file.as_mut_slice(), at, value),
        Edit::Set16 { at, value } => {
            little::write16(file.as_mut_slice(), at, value);
        }
        Edit::Set32 { at, value } => {
            little::write32(file.as_mut_slice(), at, value);
        }
        Edit::SealHeader => seal_header(file.as_mut_slice()),
        Edit::SealChunk { at } => seal_chunk(after_mut(file.as_mut_slice(), at)),
        Edit::Write { room } => become_written(rt, file, room)?,
    }
    Ok(())
}
