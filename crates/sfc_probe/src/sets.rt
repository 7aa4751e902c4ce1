// One answer for each of many sets of marks.
use crate::buffer::{Buffer, MARKS_ROOM, ROOM, after_mut, copy};
use crate::frame::Sets;
use crate::hand_out::{Bench, Held, Target, Told, call};
use crate::print::{Hex, State};
use std::io;

// The most sets of one frame.
const MOST: usize = 256;

// The marks are the digits of the set's number, the lowest first; there are none to base 0.
fn put_marks(marks: &mut [u8], set: u8, base: u8) {
    if base == 0 {
        return;
    }
    let mut rest = set;
    for mark in marks.iter_mut() {
        *mark = rest % base;
        rest /= base;
    }
}

// The store, with other bytes in blocks that are not held, which the marks tell.
fn put_store(store: &[u8], marks: &[u8], width: usize, seen: &mut [u8]) {
    copy(store, seen);
    if width == 0 {
        return;
    }
    for (at, byte) in seen.iter_mut().enumerate() {
        if marks.get(at / width) != Some(&1) {
            *byte ^= 0x5A;
        }
    }
}

// A digest is made of what it was, the answer, the state of the scratch, the finished columns, the block and the place that were
// given, and the output's hash. The turns are not in it, so that it is the same for each budget.
fn add_to(digest: &mut [u8; 32], told: Told, bench: &Bench<'_>) {
    let mut text = [0; 88];
    text[32] = told.refused().map_or(0, u8::from);
    text[33] = State::of(bench.scratch) as u8;
    text[34] = State::of(bench.numbers) as u8;
    copy(digest, &mut text);
    match told {
        Told::Content {
            handed,
            finished,
            ..
        } => {
            little::write32(&mut text, 35, finished.0);
            little::write32(&mut text, 48, handed.map_or(0, |complete| complete.end.0));
        }
        Told::Block(given) => {
            little::write32(&mut text, 40, given.map_or(0, |block| block.number.0));
            little::write32(&mut text, 48, given.map_or(0, |block| block.at.0));
        }
    }
    copy(&blake3::hash(bench.out), after_mut(&mut text, 56));
    *digest = blake3::hash(&text);
}

// Each set in turn, on copies of store and marks; printed are how many were given what they asked for, and the digest.
pub(crate) fn sweep(
    rt: &impl Print,
    sets: Sets,
    target: Target,
    held: Held<'_>,
    bench: &mut Bench<'_>,
) -> io::Result<()> {
    let mut store = Buffer::<ROOM>::new();
    let mut marks = Buffer::<MARKS_ROOM>::new();
    let mut digest = [0; 32];
    let mut given = 0u32;
    store.fill(held.store.len(), 0);
    marks.fill(held.marks.len(), 0);
    for set in (0..=u8::MAX).take(sets.count) {
        put_marks(marks.as_mut_slice(), set, sets.base);
        put_store(
            held.store,
            marks.as_slice(),
            held.head.s as usize,
            store.as_mut_slice(),
        );
        let seen = Held {
            head: held.head,
            store: store.as_slice(),
            marks: marks.as_slice(),
        };
        let told = call(target, seen, bench);
        add_to(&mut digest, told, bench);
        given = given.saturating_add(u32::from(told.refused().is_none()));
    }
    println!(rt;
        "sets {} given {given} {}",
        sets.count.min(MOST),
        Hex(&digest)
    )
}
