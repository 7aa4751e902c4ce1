// Frames that read the file's header.
use crate::buffer::{after_mut, copy, front_mut};
use crate::edit;
use crate::frame::{HeadNumber, OnHeader};
use crate::print::{self, Hex, State};
use crate::sweep::{Finding, sweep_bytes, sweep_lengths};
use sfc::{Head, find_field, read_header};
use std::{fmt, io};

// As long as the longest header with all that stands around it, and a byte more.
const LONG_ROOM: usize = 65613;

// The head of no file.
pub(crate) fn none() -> Head {
    Head {
        header_length: 0,
        uuid: [0; 16],
        size: 0,
        format: 0,
        name: [0; 255],
        name_length: 0,
        hash: [0; 32],
        n: 0,
        m: 0,
        s: 0,
        erasure: 0,
        compression: 0,
        flags: 0,
        priorities: 0,
    }
}

// The name, and what stands after it.
fn split_name(room: &[u8; 255], length: u8) -> (&[u8], &[u8]) {
    room.split_at(usize::from(length))
}

// All that a head says; of the name's room, what stands after the name.
#[derive(Clone, Copy)]
struct Told(Head);

impl fmt::Display for Told {
    fn fmt<W: fmt::Write>(&self, f: &mut fmt::Formatter<W>) -> fmt::Result {
        let head = self.0;
        let (name, rest) = split_name(&head.name, head.name_length);
        write!(
            f,
            "good H={} uuid={} size={} format={}",
            head.header_length,
            Hex(&head.uuid),
            head.size,
            head.format
        )?;
        write!(
            f,
            " name={} then {} hash={}",
            Hex(name),
            State::of(rest),
            Hex(&head.hash)
        )?;
        write!(f, " N={} M={} S={}", head.n, head.m, head.s)?;
        write!(
            f,
            " erasure={} compression={} flags={} P={}",
            head.erasure, head.compression, head.flags, head.priorities
        )
    }
}

// Reads and prints; a refused header leaves the head that was kept.
fn read(rt: &impl Print, kept: &mut Head, file: &[u8]) -> io::Result<()> {
    let read = read_header(file);
    print::answer(rt, read, |head| print!(rt; "{}", Told(head)))?;
    println!(rt)?;
    *kept = read.unwrap_or(*kept);
    Ok(())
}

// Another number in the head, which no header need have.
fn set(head: &mut Head, number: HeadNumber) {
    match number {
        HeadNumber::Size(size) => head.size = size,
        HeadNumber::N(n) => head.n = n,
        HeadNumber::M(m) => head.m = m,
        HeadNumber::S(s) => head.s = s,
        HeadNumber::Erasure(identifier) => head.erasure = identifier,
        HeadNumber::Compression(identifier) => head.compression = identifier,
        HeadNumber::UuidByte { at, value } => edit::set_byte(&mut head.uuid, at, value),
    }
}

// Where the value of a field begins, and its length; a header that is refused gives its number.
fn find(rt: &impl Print, file: &[u8], tag: u16) -> io::Result<()> {
    print::answer(rt, find_field(file, tag), |found| match found {
        Some(field) => print!(rt; "at {} {}", field.at.0, field.length),
        None => print!(rt; "nothing"),
    })?;
    println!(rt)
}

// Puts the file's last 64 bytes to the end of a longer one, and the others to its front.
fn put_apart(file: &[u8], long: &mut [u8]) {
    if let Some((front, trailer)) = file.split_last_chunk::<64>()
        && 64 <= long.len()
    {
        let at = long.len() - 64;
        copy(trailer, &mut long[at..]);
        copy(front, long);
    }
}

// Reads the header of a file that is longer by bytes of one value.
fn read_long(
    rt: &impl Print,
    kept: &mut Head,
    file: &[u8],
    count: usize,
    value: u8,
) -> io::Result<()> {
    let mut room = [value; LONG_ROOM];
    let long = front_mut(&mut room, file.len().saturating_add(count));
    put_apart(file, long);
    edit::seal_header(long);
    read(rt, kept, long)
}

fn answer(file: &[u8]) -> Finding {
    Finding::from(read_header(file).err())
}

pub(crate) fn serve(
    rt: &impl Print,
    ask: OnHeader,
    head: &mut Head,
    file: &mut [u8],
) -> io::Result<()> {
    let length = file.len();
    match ask {
        OnHeader::Read => read(rt, head, file),
        OnHeader::Bytes { from, to, damage } => {
            sweep_bytes(rt, file, from..to.min(length), damage.mask, |file| {
                if damage.sealed {
                    edit::seal_header(file);
                }
                answer(file)
            })
        }
        OnHeader::Lengths { from, to } => sweep_lengths(rt, file, from..to.min(length), answer),
        OnHeader::FindField { tag } => find(rt, file, tag),
        OnHeader::SetHead(number) => {
            set(head, number);
            Ok(())
        }
        OnHeader::Long { count, value } => read_long(rt, head, file, count, value),
    }
}
