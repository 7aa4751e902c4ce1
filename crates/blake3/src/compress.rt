// The compression of one block: seven rounds of columns and diagonals.
ghost use Rattle.std.specs.Prelude.{◌≡◌};
ghost use Rattle.blake3.specs.Compress as spec;

use crate::words::mix;
use std::array;

// The eight words that everything starts from; the third row of every state is their first half.
pub const START_VALUE: [u32; 8] = [
    0x6A09E667, 0xBB67AE85, 0x3C6EF372, 0xA54FF53A, 0x510E527F, 0x9B05688C, 0x1F83D9AB, 0x5BE0CD19,
];

// How many values a word has: the counter is cut here into its low and its high word.
const WORDS: u64 = 1 << 32;

// The four columns of a state, each mixed with two of eight words of the message. The four are written out, here and for the
// diagonals: a loop over them would want their places in a list as long, and is no plainer.
#[tactic(auto, unfolding(crate::specs::Compress::columns))]
fn columns(v: [u32; 16], m: [u32; 8]) -> [u32; 16]
    ensures { result ≡ spec.columns v m }
{
    let p = mix(v[0], v[4], v[8], v[12], m[0], m[1]);
    let q = mix(v[1], v[5], v[9], v[13], m[2], m[3]);
    let r = mix(v[2], v[6], v[10], v[14], m[4], m[5]);
    let s = mix(v[3], v[7], v[11], v[15], m[6], m[7]);
    [
        p[0], q[0], r[0], s[0], p[1], q[1], r[1], s[1], p[2], q[2], r[2], s[2], p[3], q[3], r[3],
        s[3],
    ]
}

// The four diagonals of a state, likewise.
#[tactic(auto, unfolding(crate::specs::Compress::diagonals))]
fn diagonals(v: [u32; 16], m: [u32; 8]) -> [u32; 16]
    ensures { result ≡ spec.diagonals v m }
{
    let p = mix(v[0], v[5], v[10], v[15], m[0], m[1]);
    let q = mix(v[1], v[6], v[11], v[12], m[2], m[3]);
    let r = mix(v[2], v[7], v[8], v[13], m[4], m[5]);
    let s = mix(v[3], v[4], v[9], v[14], m[6], m[7]);
    [
        p[0], q[0], r[0], s[0], s[1], p[1], q[1], r[1], r[2], s[2], p[2], q[2], q[3], r[3], s[3],
        p[3],
    ]
}

// A round takes the message's first eight words for the columns, the others for the diagonals.
#[inline(always)]
fn round(v: [u32; 16], m: [u32; 16]) -> [u32; 16]
    ensures { result ≡ spec.round v m }
{
    let first = [m[0], m[1], m[2], m[3], m[4], m[5], m[6], m[7]];
    let second = [m[8], m[9], m[10], m[11], m[12], m[13], m[14], m[15]];
    diagonals(columns(v, first), second)
}

// The message in the order in which the next round takes it.
#[inline(always)]
#[tactic(auto, unfolding(crate::specs::Compress::reordered))]
fn reordered(m: [u32; 16]) -> [u32; 16]
    ensures { result ≡ spec.reordered m }
{
    [
        m[2], m[6], m[3], m[10], m[7], m[0], m[4], m[13], m[1], m[11], m[12], m[5], m[9], m[14],
        m[15], m[8],
    ]
}

// Seven rounds, written out: a loop over them moves the message's words, and hashes 490 MB/s where this hashes 570.
#[tactic(auto, unfolding(crate::specs::Compress::rounds))]
fn rounds(v: [u32; 16], m: [u32; 16]) -> [u32; 16]
    ensures { result ≡ spec.rounds 7 v m }
{
    let m2 = reordered(m);
    let m3 = reordered(m2);
    let m4 = reordered(m3);
    let m5 = reordered(m4);
    let m6 = reordered(m5);
    let m7 = reordered(m6);
    let three = round(round(round(v, m), m2), m3);
    round(round(round(round(three, m4), m5), m6), m7)
}

// A state folded to a chaining value.
fn fold(v: [u32; 16]) -> [u32; 8]
    ensures { result ≡ spec.folded v }
{
    array::from_fn(|k| v[k] ^ v[k + 8])
}

// The chaining value after one block, of which n bytes are text; i is the counter.
pub fn compress(cv: [u32; 8], m: [u32; 16], i: u64, n: u32, flags: u32) -> [u32; 8]
    ensures { result ≡ spec.compressed cv m i n flags }
{
    let s = START_VALUE;
    let low = (i % WORDS) as u32;
    let high = (i / WORDS) as u32;
    let v = [
        cv[0], cv[1], cv[2], cv[3], cv[4], cv[5], cv[6], cv[7], s[0], s[1], s[2], s[3], low, high,
        n, flags,
    ];
    fold(rounds(v, m))
}
