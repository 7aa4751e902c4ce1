// The frame that asks for the listing of the file.
use crate::buffer::{copy, front, front_mut};
use crate::frame::{Piece, Resized};
use crate::print::{self, Lendable, State};
use sfc::Reason;
use sfc_listing::{
    BOUNDS, CONTENT, Desk, FILE_MOST, MARKS, NUMBERS, SCRATCH, STORE, TEXT, listing,
};
use std::io;

// Each room has one more than is right.
const STORE_ROOM: usize = STORE + 1;

const MARKS_ROOM: usize = MARKS + 1;

const SCRATCH_ROOM: usize = SCRATCH + 1;

const NUMBERS_ROOM: usize = NUMBERS + 1;

const CONTENT_ROOM: usize = CONTENT + 1;

const BOUNDS_ROOM: usize = BOUNDS + 1;

const TEXT_ROOM: usize = TEXT + 1;

const FILE_ROOM: usize = FILE_MOST + 1;

// The length of a piece: the right one, unless the frame gives it another.
fn length_of(resized: Option<Resized>, piece: Piece, right: usize) -> usize {
    match resized {
        Some(other) if other.piece == piece => other.length,
        _ => right,
    }
}

// The call's answer, what became of the output after the text and of the memory, and the text.
fn report(
    rt: &impl Print,
    listed: Result<usize, Reason>,
    desk: &Desk<'_>,
    out: &[u8],
) -> io::Result<()> {
    let (text, behind) = out.split_at(listed.unwrap_or(0).min(out.len()));
    print::answer(rt, listed, |length| print!(rt; "listed {length}"))?;
    print!(rt;
        " behind {} desk {}",
        State::of(behind),
        State::of(desk.store)
    )?;
    print!(rt; " {} {}", State::of(desk.marks), State::of(desk.scratch))?;
    print!(rt; " {} {}", State::of(desk.numbers), State::of(desk.content))?;
    println!(rt; " {}", State::of(desk.bounds))?;
    rt.write_all(text)
}

// With memory of the lengths that are asked for, and the output.
fn lend(rt: &impl Print, resized: Option<Resized>, file: &[u8], out: &mut [u8]) -> io::Result<()> {
    let mut store = [u8::PATTERN; STORE_ROOM];
    let mut marks = [u8::PATTERN; MARKS_ROOM];
    let mut scratch = [u8::PATTERN; SCRATCH_ROOM];
    let mut numbers = [u16::PATTERN; NUMBERS_ROOM];
    let mut content = [u8::PATTERN; CONTENT_ROOM];
    let mut bounds = [u32::PATTERN; BOUNDS_ROOM];
    let mut desk = Desk {
        store: front_mut(&mut store, length_of(resized, Piece::Store, STORE)),
        marks: front_mut(&mut marks, length_of(resized, Piece::Marks, MARKS)),
        scratch: front_mut(&mut scratch, length_of(resized, Piece::Scratch, SCRATCH)),
        numbers: front_mut(&mut numbers, length_of(resized, Piece::Numbers, NUMBERS)),
        content: front_mut(&mut content, length_of(resized, Piece::Content, CONTENT)),
        bounds: front_mut(&mut bounds, length_of(resized, Piece::Bounds, BOUNDS)),
    };
    let listed = listing(file, &mut desk, out);
    report(rt, listed, &desk, out)
}

pub(crate) fn serve(
    rt: &impl Print,
    room: usize,
    resized: Option<Resized>,
    file: &[u8],
) -> io::Result<()> {
    let mut long = [0; FILE_ROOM];
    let mut out = [u8::PATTERN; TEXT_ROOM];
    copy(file, &mut long);
    let length = length_of(resized, Piece::File, file.len());
    lend(rt, resized, front(&long, length), front_mut(&mut out, room))
}
