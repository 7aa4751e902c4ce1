// What fills lent memory, and how it is printed: a linear congruential generator, marks, garbage, digests and bytes in hex.
ghost use Rattle.std.specs.Prelude.{◌<◌};
ghost use Rattle.cauchy_vectors.specs.declared.fillers.TheConstants.{PRIME};

use std::{array, fmt};

// What dirty memory holds.
pub(crate) const DIRT: u8 = 0xEE;

pub(crate) const DIRTY_NUMBER: u16 = 7;

// Fills with what the generator gives, from state 1 on.
pub(crate) fn fill(out: &mut [u8]) {
    let mut state: u32 = 1;
    for x in out {
        state = state.wrapping_mul(1103515245).wrapping_add(12345);
        *x = state.to_le_bytes()[2];
    }
}

// The marks of a store: 1 for an index that is held, else absent, barred or a mark that does not exist.
pub(crate) fn marks<const N: usize, F: Fn(usize) -> bool>(gone: F) -> [u8; N]
    requires { (i : _) → i < N → F.pre gone i }
{
    array::from_fn(|i| if gone(i) { [0, 2, 7][i % 3] } else { 1 })
}

// Leaves garbage where the blocks of s bytes are not held, which the marks tell.
pub(crate) fn damage(store: &mut [u8], marks: &[u8], s: usize)
    requires { 0 < s }
{
    for (i, x) in store.iter_mut().enumerate() {
        if marks.get(i / s) != Some(&1) {
            *x = (i % 251) as u8;
        }
    }
}

const PRIME: u64 = 4294967291;

// A running digest modulo the largest prime below 2^32: a wrong, missing or moved value changes it.
#[derive(Clone, Copy)]
pub(crate) struct Digest {
    value: u64,
    ghost reduced: { value < PRIME },
}

impl Digest {
    pub(crate) fn new() -> Digest {
        Digest { value: 1 }
    }

    pub(crate) fn take(self, x: u16) -> Digest {
        Digest {
            value: (self.value * 65599 + u64::from(x) + 1) % PRIME,
        }
    }

    pub(crate) fn take_all<T: Copy + Into<u16>>(self, values: &[T]) -> Digest {
        values.iter().fold(self, |digest, &x| digest.take(x.into()))
    }
}

impl fmt::Display for Digest {
    fn fmt<W: fmt::Write>(&self, f: &mut fmt::Formatter<W>) -> fmt::Result {
        write!(f, "{:08x}", self.value)
    }
}

// Bytes as they are printed. blake3_vectors has such a type for its hashes: the programs share no crate of their own.
#[derive(Clone, Copy)]
pub(crate) struct Hex<'a>(pub(crate) &'a [u8]);

impl fmt::Display for Hex<'_> {
    fn fmt<W: fmt::Write>(&self, f: &mut fmt::Formatter<W>) -> fmt::Result {
        for x in self.0 {
            write!(f, "{x:02x}")?;
        }
        Ok(())
    }
}
