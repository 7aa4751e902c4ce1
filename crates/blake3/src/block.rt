// The words of a block of bytes, and the bytes of a chaining value.
ghost use Rattle.std.specs.Prelude.{◌≡◌, ◌+◌, ◌≤◌, length};
ghost use Rattle.little.specs.Fields.{le};
ghost use Rattle.blake3.specs.Compress.{bytes_of_words};
ghost use Rattle.blake3.specs.Tree.{block_words};

use std::array;

// The bytes of a whole block.
pub const BLOCK_LENGTH: usize = 64;

// The four bytes from j on as a word, the lowest first. They lie inside, so that the compiler makes one load of them.
fn word(b: &[u8; BLOCK_LENGTH], j: usize) -> u32
    requires { j + 4 ≤ length b.now }
    ensures { result ≡ le b.now j 4 }
{
    u32::from_le_bytes([b[j], b[j + 1], b[j + 2], b[j + 3]])
}

// The words of a whole block.
fn whole_block(b: &[u8; BLOCK_LENGTH]) -> [u32; 16]
    ensures { result ≡ block_words b.now }
{
    array::from_fn(|k| word(b, 4 * k))
}

// The words of a short block, with zeros past its end. They are read one by one: a copy whose length is not known beforehand
// would call the C library, of which a program that links the hash alone needs nothing else.
fn short_block(b: &[u8]) -> [u32; 16]
    ensures { result ≡ block_words b.now }
{
    let mut words = [0u32; 16];
    for k in 0..16 {
        words[k] = little::read32(b, 4 * k);
    }
    words
}

// The words of a block of any length: a short one is read as if zeros stood after it.
pub fn block(b: &[u8]) -> [u32; 16]
    ensures { result ≡ block_words b.now }
{
    match b.first_chunk() {
        Some(whole) => whole_block(whole),
        None => short_block(b),
    }
}

// The 32 bytes of a chaining value.
pub fn bytes_of(v: [u32; 8]) -> [u8; 32]
    ensures { result ≡ bytes_of_words v }
{
    let mut out = [0u8; 32];
    for k in 0..8 {
        out[4 * k..4 * k + 4].copy_from_slice(&v[k].to_le_bytes());
    }
    out
}
