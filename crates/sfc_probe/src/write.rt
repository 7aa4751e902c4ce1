// The frame that writes a file from inputs that stand in the file.
use crate::buffer::{after, copy, front};
use crate::print::{self, Output};
use sfc::{FileFacts, write};
use std::io;

// The inputs begin with S and M, UUID, time, format, flags, and the lengths of what follows: the name, the list and the fields.
const NAME_LENGTH_AT: usize = 36;

const LIST_LENGTH_AT: usize = 38;

const FIELDS_LENGTH_AT: usize = 40;

const AFTER_FACTS: usize = 44;

// The most indices in a list.
const LIST_ROOM: usize = 2048;

fn facts_of(inputs: &[u8]) -> FileFacts {
    let mut uuid = [0; 16];
    copy(after(inputs, 8), &mut uuid);
    FileFacts {
        s: little::read32(inputs, 0),
        m: little::read32(inputs, 4),
        uuid,
        time: little::read64(inputs, 24),
        format: little::read16(inputs, 32),
        flags: little::read16(inputs, 34),
    }
}

// Puts the numbers of four bytes to the front of a list, as far as both go, and answers that front.
fn put_indices<'a>(bytes: &[u8], list: &'a mut [u32]) -> &'a [u32] {
    let indices = bytes.chunks_exact(4);
    let count = indices.len();
    for (index, four) in list.iter_mut().zip(indices) {
        *index = little::read32(four, 0);
    }
    front(list, count)
}

// Cuts off the first bytes, as many as are asked for or there are.
fn split(bytes: &[u8], most: usize) -> (&[u8], &[u8]) {
    bytes.split_at(most.min(bytes.len()))
}

// Writes, prints the answer and the output, and answers how long the file is where there is one.
pub(crate) fn from_inputs(
    rt: &impl Print,
    inputs: &[u8],
    out: &mut [u8],
) -> io::Result<Option<usize>> {
    let mut room = [0; LIST_ROOM];
    let name_length = little::read16(inputs, NAME_LENGTH_AT) as usize;
    let list_length = 4 * little::read16(inputs, LIST_LENGTH_AT) as usize;
    let fields_length = little::read32(inputs, FIELDS_LENGTH_AT) as usize;
    let (name, rest) = split(after(inputs, AFTER_FACTS), name_length);
    let (list, rest) = split(rest, list_length);
    let (fields, content) = split(rest, fields_length);
    let indices = put_indices(list, &mut room);
    let written = write(facts_of(inputs), content, name, indices, fields, out);
    print::answer(rt, written, |length| print!(rt; "written {length}"))?;
    println!(rt; "{}", Output(out))?;
    Ok(written.ok())
}
