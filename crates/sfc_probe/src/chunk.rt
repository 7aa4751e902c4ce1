// Frames that check or measure a part of the file as a chunk.
use crate::frame::OnChunk;
use crate::sweep::{Finding, sweep_bytes, sweep_lengths};
use crate::{edit, print};
use sfc::{Head, check_chunk, measure_chunk};
use std::io;

fn check(rt: &impl Print, head: Head, chunk: &[u8]) -> io::Result<()> {
    match check_chunk(head, chunk) {
        Ok(whole) => println!(rt; "whole {} {}", whole.index.0, whole.payload_at.0),
        Err(broken) => println!(rt; "{}", Finding::from(Some(broken))),
    }
}

fn measure(rt: &impl Print, head: Head, chunk: &[u8]) -> io::Result<()> {
    print::answer(
        rt,
        measure_chunk(head, chunk),
        |length| print!(rt; "length {length}"),
    )?;
    println!(rt)
}

pub(crate) fn serve(rt: &impl Print, ask: OnChunk, head: Head, chunk: &mut [u8]) -> io::Result<()> {
    let length = chunk.len();
    let answer = |chunk: &[u8]| Finding::from(check_chunk(head, chunk).err());
    match ask {
        OnChunk::Check => check(rt, head, chunk),
        OnChunk::Bytes(damage) => sweep_bytes(rt, chunk, 0..length, damage.mask, |chunk| {
            if damage.sealed {
                edit::seal_chunk(chunk);
            }
            answer(chunk)
        }),
        OnChunk::Lengths => sweep_lengths(rt, chunk, 0..length, answer),
        OnChunk::Measure => measure(rt, head, chunk),
    }
}
