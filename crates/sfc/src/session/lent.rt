// 71, wherever a call gives it: what is handed in and lent does not fit together. Each test goes on from the one before it.
ghost use Rattle.std.specs.Prelude.{◌≡◌, not, ◌||◌, ◌*◌, eqb};
ghost use Rattle.sfc.specs.session.Lent.{shape_wrong, marks_wrong, lent_wrong, rebuilding_wrong, columns_wrong};

use crate::format::header::Head;
use crate::format::limits::Shape;
use crate::session::marks::are_marks_known;

// How many elements the field's scratch has, whatever the file.
pub(crate) const ELEMENTS: usize = 1024;

// Store, marks and scratch stay slices of their own here and in the public calls: each call lends others of them, some only to be
// read, as the C interface does.
impl Head {
    // Of the four numbers handed in.
    pub(crate) fn is_shape_wrong(&self) -> bool
        ensures { result ≡ shape_wrong self.now.size self.now.n self.now.m self.now.s }
    {
        let shape = Shape {
            size: self.size,
            n: self.n,
            m: self.m,
            s: self.s,
        };
        shape.is_wrong()
    }

    // Of them and the lent marks.
    pub(crate) fn is_marks_wrong(&self, marks: &[u8]) -> bool
        ensures { result ≡ marks_wrong self.now.size self.now.n self.now.m self.now.s marks.now }
    {
        self.is_shape_wrong()
            | (marks.len() != self.n as usize + self.m as usize)
            | !are_marks_known(marks)
    }

    // Of them and the lent store.
    pub(crate) fn is_lent_wrong(&self, store: &[u8], marks: &[u8]) -> bool
        ensures { result ≡ lent_wrong self.now.size self.now.n self.now.m self.now.s store.now marks.now }
    {
        if self.is_marks_wrong(marks) {
            return true;
        }
        store.len() != (self.n as usize + self.m as usize) * self.s as usize
    }

    // Of them and the lengths of the scratch.
    pub(crate) fn is_rebuild_wrong(
        &self,
        store: &[u8],
        marks: &[u8],
        scratch: usize,
        numbers: usize,
    ) -> bool
        ensures { result ≡ (lent_wrong self.now.size self.now.n self.now.m self.now.s store.now marks.now || not (eqb scratch (self.now.m * self.now.s)) || not (eqb numbers 1024)) }
    {
        if self.is_lent_wrong(store, marks) {
            return true;
        }
        (scratch != self.m as usize * self.s as usize) | (numbers != ELEMENTS)
    }

    // Of the scratch that turns rebuild into, and of how many of its word columns are finished.
    pub(crate) fn is_rebuilding_wrong(&self, scratch: &[u8], finished: u32) -> bool
        ensures { result ≡ rebuilding_wrong self.now.m self.now.s scratch.now finished }
    {
        (scratch.len() != self.m as usize * self.s as usize) | (self.s / 2 < finished)
    }

    // Of all of that together, for a turn and a release.
    pub(crate) fn is_columns_wrong(
        &self,
        store: &[u8],
        marks: &[u8],
        scratch: &[u8],
        finished: u32,
    ) -> bool
        ensures { result ≡ columns_wrong self.now.size self.now.n self.now.m self.now.s store.now marks.now scratch.now finished }
    {
        self.is_lent_wrong(store, marks) | self.is_rebuilding_wrong(scratch, finished)
    }
}
