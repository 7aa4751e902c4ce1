// The program that lists: bytes come in by standard input, and lines of text go out.
#![tactic(auto)]

ghost use Rattle.std.specs.Prelude.{◌≡◌, ◌≤◌, IfOk, length, take};

use sfc::Reason;
use sfc_listing::{Desk, listing};
use std::io;
use std::io::Read;

// A byte more than the longest file that is listed, so that a longer one is known by its length.
const FILE_ROOM: usize = sfc_listing::FILE_MOST + 1;

fn file_room() -> [u8; FILE_ROOM] {
    [0u8; FILE_ROOM]
}

// How many bytes were read, to the input's end or until the room is full. Each turn goes on by as many bytes as came, and std's
// `read_exact` says nothing of how many came. sfc_probe has such a function: the programs share no crate of their own.
fn read_input(rt: &impl io::Input, room: &mut [u8]) -> io::Result<usize>
    ensures { IfOk result (λ count. (count ≤ length room.new) × (count ≡ length (take count room.new))) }
{
    let mut reader = rt.reader();
    let mut length = 0;
    while length < room.len() {
        let count = reader.read(&mut room[length..])?;
        if count == 0 {
            return Ok(length);
        }
        length += count;
    }
    Ok(length)
}

// The text at the output's front. Memory as long as it is lent here is never refused.
fn print(rt: &(impl Print + Eprint), listed: Result<usize, Reason>, out: &[u8]) -> io::Result<()> {
    if let Ok(length) = listed {
        let end = length.min(out.len());
        if rt.write_all(&out[..end]).is_err() {
            eprintln!(rt; "sfc_list: the listing could not be written")?;
        }
    }
    Ok(())
}

fn list(rt: &(impl Print + Eprint), file: &[u8]) -> io::Result<()> {
    let mut desk = Desk {
        store: &mut [0u8; sfc_listing::STORE],
        marks: &mut [0u8; sfc_listing::MARKS],
        scratch: &mut [0u8; sfc_listing::SCRATCH],
        numbers: &mut [0u16; sfc_listing::NUMBERS],
        content: &mut [0u8; sfc_listing::CONTENT],
        bounds: &mut [0u32; sfc_listing::BOUNDS],
    };
    let mut out = [0u8; sfc_listing::TEXT];
    let listed = listing(file, &mut desk, &mut out);
    print(rt, listed, &out)
}

// What was not read to its end is not judged.
fn main(rt: HostRuntime) -> io::Result<()> {
    let mut room = file_room();
    match read_input(&rt, &mut room) {
        Ok(length) => list(&rt, &room[..length]),
        Err(_) => eprintln!(rt; "sfc_list: the input could not be read"),
    }
}
