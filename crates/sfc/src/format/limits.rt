// The draft's limits and the house's, as tests of numbers.
ghost use Rattle.std.specs.Prelude.{◌≡◌};
ghost use Rattle.sfc.specs.format.Limits.{wanted_blocks, unlawful, above_house, length_wrong};
ghost use Rattle.sfc.specs.format.Header.{mispaired, flags_barred};
ghost use Rattle.sfc.specs.session.Lent.{shape_wrong};

use crate::format::layout::*;

// The draft's: bytes to a block, blocks of a kind and of both, bytes of content.
const DRAFT_BLOCK: u32 = 268435456;

const DRAFT_BLOCKS: u32 = 65534;

const DRAFT_BLOCKS_IN_ALL: u64 = 65535;

const DRAFT_SIZE: u64 = 1099511627776;

// How many data blocks a size wants, of blocks that are not empty.
pub(crate) fn wanted_blocks(size: u64, s: u32) -> u64
    requires { s ≡ 0 → ⊥ }
    ensures { result ≡ wanted_blocks size s }
{
    if size == 0 {
        return 1;
    }
    (size - 1) / (s as u64) + 1
}

// The content's size, N, M and S, as a header has them or as a caller of the writer would have them.
#[derive(Clone, Copy)]
pub(crate) struct Shape {
    pub(crate) size: u64,
    pub(crate) n: u32,
    pub(crate) m: u32,
    pub(crate) s: u32,
}

impl Shape {
    // 14. A block size of 0 is unlawful whatever the rest is, and divides nothing.
    pub(crate) fn is_unlawful(self) -> bool
        ensures { result ≡ unlawful self.size self.n self.m self.s }
    {
        let Shape { size, n, m, s } = self;
        if s == 0 {
            return true;
        }
        (s < 2)
            | (DRAFT_BLOCK < s)
            | (s % 2 != 0)
            | (n < 1)
            | (DRAFT_BLOCKS < n)
            | (DRAFT_BLOCKS < m)
            | (DRAFT_BLOCKS_IN_ALL < n as u64 + m as u64)
            | (DRAFT_SIZE < size)
            | (n as u64 != wanted_blocks(size, s))
    }

    // 15
    pub(crate) fn is_above_house(self) -> bool
        ensures { result ≡ above_house self.n self.m self.s }
    {
        let Shape { n, m, s, .. } = self;
        (MOST_DATA < n) | (MOST_RECOVERY < m) | (MOST_BLOCK < s)
    }

    // Either.
    pub(crate) fn is_wrong(self) -> bool
        ensures { result ≡ shape_wrong self.size self.n self.m self.s }
    {
        self.is_unlawful() | self.is_above_house()
    }
}

// 13
pub(crate) fn is_length_wrong(h: u32) -> bool
    ensures { result ≡ length_wrong h }
{
    (h < LEAST_H) | (MOST_H < h)
}

// 16
pub(crate) fn is_mispaired(m: u32, erasure: u8) -> bool
    ensures { result ≡ mispaired m erasure }
{
    ((m == 0) & (erasure != 0)) | ((0 < m) & (erasure == 0))
}

// 19
pub(crate) fn are_flags_barred(flags: u16) -> bool
    ensures { result ≡ flags_barred flags }
{
    (flags / 2 % 2 == 1)
        | (flags / 4 % 2 == 1)
        | (flags / 8 % 2 == 1)
        | (flags % 2 == 1)
        | (flags / 32 % 2 == 1)
}
