// The priority list, in a header region and as the writer is given it.
ghost use Rattle.std.specs.Prelude.{◌≡◌, ℕ, ◌+◌, ◌*◌, ◌/◌, ◌^◌, ◌<◌, List, length, drop, eqb, slice_index};
ghost use Rattle.little.specs.Runs.{any};
ghost use Rattle.sfc.specs.format.Header.{indices, distinct_below, priority_wrong};

use crate::format::layout::HEADER_BEFORE_LISTS;

// How many bytes an index of the list has.
const INDEX_BYTES: usize = 4;

// Numbers one after the other.
pub(crate) trait Numbers {
    ghost numbers: { Self → List ℕ };

    fn count(&self) -> usize
        ensures { result ≡ length (numbers self.now) };

    fn number(&self, i: usize) -> u32
        requires { i < length (numbers self.now) }
        ensures { result ≡ slice_index (numbers self.now) i };
}

// A list of them,
impl<'a> Numbers for &'a [u32] {
    ghost numbers = { λ list. list.now };

    fn count(&self) -> usize {
        self.len()
    }

    fn number(&self, i: usize) -> u32 {
        self[i]
    }
}

// or their bytes, as they stand in a region.
#[derive(Clone, Copy)]
struct Stored<'a> {
    bytes: &'a [u8],
}

impl<'a> Numbers for Stored<'a> {
    ghost numbers = { λ s. indices s.bytes.now 0 (length s.bytes.now / 4) };

    fn count(&self) -> usize {
        self.bytes.len() / INDEX_BYTES
    }

    fn number(&self, i: usize) -> u32 {
        little::read32(self.bytes, INDEX_BYTES * i)
    }
}

// Whether x is one of the numbers from place `from` on. All are looked at, so that the compiler compares many at a time: a lawful
// list has no number twice, and none would end the walk.
fn is_among<L: Numbers>(x: u32, list: &L, from: usize) -> bool
    ensures { result ≡ any (eqb x) (drop from (L.numbers list.now)) }
{
    let mut found = false;
    for i in from..list.count() {
        found |= x == list.number(i);
    }
    found
}

// Whether each of them is below n, and none stands twice.
pub(crate) fn is_distinct_below<L: Numbers + Copy>(list: L, n: u32) -> bool
    ensures { result ≡ distinct_below n (L.numbers list) }
{
    for i in 0..list.count() {
        let x = list.number(i);
        if (n <= x) | is_among(x, &list, i + 1) {
            return false;
        }
    }
    true
}

// 20. The pairs are compared only where the list is no longer than n, so that n bounds the work.
pub(crate) fn is_priority_wrong(r: &[u8], n: u32, p: u16) -> bool
    ensures { result ≡ priority_wrong n p r.now }
{
    let end = HEADER_BEFORE_LISTS + INDEX_BYTES * p as usize;
    if (n < p as u32) | (r.len() < end) {
        return true;
    }
    let bytes = &r[HEADER_BEFORE_LISTS..end];
    !is_distinct_below(Stored { bytes }, n)
}
