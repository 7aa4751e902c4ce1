// The tree over a text: a piece, two parts joined, and the recursion on the parts of the slice.
ghost use Rattle.std.specs.Prelude.{◌≡◌, ◌+◌, ◌*◌, ◌^◌, ◌<◌, ◌≤◌, length};
ghost use Rattle.blake3.specs.Tree as spec;

use crate::block::{BLOCK_LENGTH, block};
use crate::compress::{START_VALUE, compress};

// The bytes of a whole piece.
pub const PIECE_LENGTH: usize = 1024;

// The length that the compression of a whole block is told.
const WHOLE_BLOCK: u32 = BLOCK_LENGTH as u32;

// The flag for the first block of a piece.
const START: u32 = 1;

// The flag for the last block of a piece.
const END: u32 = 2;

// The flag for two subtrees joined.
const PARENT: u32 = 4;

// The flag for the last compression, which gives the hash.
const ROOT: u32 = 8;

// Whether a tree is that of the whole text, whose last compression gives the hash, or of a part of it.
#[derive(Clone, Copy)]
pub enum Extent {
    Whole,
    Part,
}

impl Extent {
    // The flag ROOT for the whole text, and none for a part of it.
    fn flag(self) -> u32
        ensures { (result ≡ spec.flag_of self) × (result ≤ 8) }
    {
        match self {
            Extent::Whole => ROOT,
            Extent::Part => 0,
        }
    }
}

// The flag START for the first block of a piece, and none for the others.
fn start_flag(k: usize) -> u32
    ensures { (result ≡ spec.start_flag k) × (result ≤ 1) }
{
    if k == 0 { START } else { 0 }
}

// Piece i of a text: the loop takes every block but the last, which goes in with its own length and flags.
pub fn piece(s: &[u8], i: u64, extent: Extent) -> [u32; 8]
    ensures { result ≡ spec.piece i (spec.flag_of extent) s.now }
{
    let last = s.len().saturating_sub(1) / BLOCK_LENGTH;
    let mut cv = START_VALUE;
    // In a loop a call's array gets a name of its own before it is stored: laid straight into cv, it would get no proof.
    for k in 0..last {
        let at = k * BLOCK_LENGTH;
        let words = block(&s[at..at + BLOCK_LENGTH]);
        let next = compress(cv, words, i, WHOLE_BLOCK, start_flag(k));
        cv = next;
    }
    let rest = &s[last * BLOCK_LENGTH..];
    compress(
        cv,
        block(rest),
        i,
        rest.len() as u32,
        start_flag(last) + END + extent.flag(),
    )
}

// Two subtrees joined.
pub fn parent(l: [u32; 8], r: [u32; 8], extent: Extent) -> [u32; 8]
    ensures { result ≡ spec.parent (spec.flag_of extent) l r }
{
    let both = [
        l[0], l[1], l[2], l[3], l[4], l[5], l[6], l[7], r[0], r[1], r[2], r[3], r[4], r[5], r[6],
        r[7],
    ];
    compress(START_VALUE, both, 0, WHOLE_BLOCK, PARENT + extent.flag())
}

// How many pieces of a text of n bytes go to the left: the largest power of two that leaves a byte on the right.
fn left_pieces(n: usize) -> usize
    requires { spec.piece_length < n }
    ensures count { result ≡ spec.left_pieces n }
    ensures parts { (0 < result) × (result * spec.piece_length < n) }
{
    let most = (n - 1) / PIECE_LENGTH;
    1 << most.ilog2()
}

// The tree of a text or of a part of one, whose first piece is piece i of the whole text.
pub fn tree(s: &[u8], i: u64, extent: Extent) -> [u32; 8]
    requires { i * spec.piece_length + length s.now < 2 ^ 64 }
    ensures { result ≡ spec.tree_of i (spec.flag_of extent) s.now }
{
    if s.len() <= PIECE_LENGTH {
        return piece(s, i, extent);
    }
    let pieces = left_pieces(s.len());
    let (left, right) = s.split_at(pieces * PIECE_LENGTH);
    let l = tree(left, i, Extent::Part);
    let r = tree(right, i + pieces as u64, Extent::Part);
    parent(l, r, extent)
}
