// Bytes in a room of fixed size, and the front parts that calls are lent.
ghost use Rattle.std.specs.Prelude.{◌≤◌};

use crate::edit;
use crate::print::Lendable;
use std::io;

// So many bytes has each large buffer, and the marks.
pub(crate) const ROOM: usize = 65536;

pub(crate) const MARKS_ROOM: usize = 4096;

// The first items, as many as are asked for or there are. This and what follows stands twice, for `&` and for `&mut`: no
// parameter stands for both.
pub(crate) fn front<T>(items: &[T], most: usize) -> &[T] {
    &items[..most.min(items.len())]
}

pub(crate) fn front_mut<T>(items: &mut [T], most: usize) -> &mut [T] {
    let end = most.min(items.len());
    &mut items[..end]
}

// The items from a place on, none past the end.
pub(crate) fn after<T>(items: &[T], start: usize) -> &[T] {
    &items[start.min(items.len())..]
}

pub(crate) fn after_mut<T>(items: &mut [T], start: usize) -> &mut [T] {
    let start = start.min(items.len());
    &mut items[start..]
}

// Copies as many as the shorter has.
pub(crate) fn copy<T: Copy>(src: &[T], dst: &mut [T]) {
    for (to, from) in dst.iter_mut().zip(src) {
        *to = *from;
    }
}

// At most N bytes. It is no `Vec`, since the programs too work on memory of fixed size.
#[derive(Drop)]
pub(crate) struct Buffer<const N: usize> {
    bytes: [u8; N],
    length: usize,
    ghost within: { length ≤ N },
}

impl<const N: usize> Buffer<N> {
    pub(crate) fn new() -> Self {
        Buffer {
            bytes: [0; N],
            length: 0,
        }
    }

    // So many bytes of the pattern that an output has before a call; the room behind them has it too, and nobody reads there. It is
    // laid down where the caller has it: a buffer that is filled here and handed on would be copied whole.
    pub(crate) fn patterned(count: usize) -> Self {
        Buffer {
            bytes: [u8::PATTERN; N],
            length: count.min(N),
        }
    }

    pub(crate) fn as_slice(&self) -> &[u8] {
        &self.bytes[..self.length]
    }

    pub(crate) fn as_mut_slice(&mut self) -> &mut [u8] {
        let length = self.length;
        let bytes = &mut self.bytes;
        let all = &mut bytes[..];
        &mut all[..length]
    }

    // The bytes become so many of one value.
    pub(crate) fn fill(&mut self, count: usize, value: u8) {
        self.length = 0;
        self.grow(count, value);
    }

    // The bytes become others.
    pub(crate) fn load(&mut self, bytes: &[u8]) {
        self.length = 0;
        self.extend(bytes);
    }

    // The bytes become the next of the input, as far as it goes.
    pub(crate) fn read(&mut self, rt: &impl Input, count: usize) -> io::Result<()> {
        self.length = edit::fill(rt, count, &mut self.bytes)?;
        Ok(())
    }

    // No more than so many bytes stay.
    pub(crate) fn truncate(&mut self, length: usize) {
        self.length = length.min(self.length);
    }

    // Bytes of one value come after the others, as far as there is room.
    pub(crate) fn grow(&mut self, count: usize, value: u8) {
        let start = self.length;
        let all = &mut self.bytes[..];
        let room = &mut all[start..];
        let added = count.min(room.len());
        room[..added].fill(value);
        self.length = start + added;
    }

    // Other bytes do, as far as there is room.
    pub(crate) fn extend(&mut self, bytes: &[u8]) {
        let start = self.length;
        let all = &mut self.bytes[..];
        let room = &mut all[start..];
        let added = bytes.len().min(room.len());
        copy(bytes, room);
        self.length = start + added;
    }
}
