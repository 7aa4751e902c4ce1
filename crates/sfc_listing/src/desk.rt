// The desk: all memory that a listing is lent beside its output.
ghost use Rattle.std.specs.Prelude.{◌≡◌, ◌≤◌, length, take};
ghost use Rattle.sfc_listing.specs.Listing.{desk_of, desk_wrong, cleared};
ghost use Rattle.sfc_listing.specs.Lent.{on_desk, SameDesk};

use crate::room::{BOUNDS, CONTENT, MARKS, NUMBERS, SCRATCH, STORE};

// Store, marks, scratch and its numbers, the content, first and last of each missing range.
#[derive(Drop)]
pub struct Desk<'a> {
    pub store: &'a mut [u8],
    pub marks: &'a mut [u8],
    pub scratch: &'a mut [u8],
    pub numbers: &'a mut [u16],
    pub content: &'a mut [u8],
    pub bounds: &'a mut [u32],
}

impl<'a> Desk<'a> {
    // 71: a piece is not as long as the program's limits want it.
    pub(crate) fn are_lengths_wrong(&self) -> bool
        ensures { result ≡ desk_wrong (on_desk self.now) }
    {
        (self.store.len() != STORE)
            | (self.marks.len() != MARKS)
            | (self.scratch.len() != SCRATCH)
            | (self.numbers.len() != NUMBERS)
            | (self.content.len() != CONTENT)
            | (self.bounds.len() != BOUNDS)
    }

    // As much of it as a session of so many blocks wants.
    pub(crate) fn cut(self, bytes: usize, blocks: usize, rebuilt: usize) -> Desk<'a>
        requires store { bytes ≤ length self.store.now }
        requires marks { blocks ≤ length self.marks.now }
        requires scratch { rebuilt ≤ length self.scratch.now }
        ensures { on_desk result ≡ desk_of (take bytes self.entry.store.now) (take blocks self.entry.marks.now) (take rebuilt self.entry.scratch.now) self.entry.numbers.now self.entry.content.now self.entry.bounds.now }
    {
        let Desk {
            store,
            marks,
            scratch,
            numbers,
            content,
            bounds,
        } = self;
        Desk {
            store: &mut store[..bytes],
            marks: &mut marks[..blocks],
            scratch: &mut scratch[..rebuilt],
            numbers,
            content,
            bounds,
        }
    }

    // Zeros over all of it.
    pub(crate) fn clear(&mut self)
        ensures memory { SameDesk self.old self.new }
        ensures cleared { on_desk self.new ≡ cleared (on_desk self.old) }
    {
        self.store.fill(0);
        self.marks.fill(0);
        self.scratch.fill(0);
        self.numbers.fill(0);
        self.content.fill(0);
        self.bounds.fill(0);
    }
}
