// Tables of products: a u64 holds a word of four rows, and two tables of 256 have the four products of each word.
ghost use Rattle.std.specs.Prelude.{◌≡◌, ◌+◌, ◌*◌, ◌/◌, ◌%◌, ◌≤◌, ◌<◌, length, get_or, set};
ghost use Rattle.std.specs.Int.Bits.{bit_xor};
ghost use Rattle.cauchy.specs.Code.{field_size, word_bytes};
ghost use Rattle.cauchy.specs.inner.Packed.{Packed, Doubled, Spread, Filled, FilledBoth, looked, AddedTo, AddedMore, AddedBy, AddedFour, weight_of, mixed_word, times_word, plus_times, MixedBy, ScaledBy, Summed};

// A table has an entry for each value of a byte.
pub const ENTRIES: usize = 256;

// What the polynomial has below its highest bit.
const LOW_POLYNOMIAL: u64 = gf16::POLYNOMIAL as u64 - 0x1_0000;

// The fifteen low bits of each of four words, and the lowest bit of each.
const LOW_BITS: u64 = 0x7FFF_7FFF_7FFF_7FFF;

const ONES: u64 = 0x1_0001_0001_0001;

// A word of each of four rows, in one number.
pub fn pack_four(a: u16, b: u16, c: u16, d: u16) -> u64
    ensures { Packed a b c d result }
{
    (a as u64)
        + 0x1_0000 * (b as u64)
        + 0x1_0000_0000 * (c as u64)
        + 0x1_0000_0000_0000 * (d as u64)
}

// The weights of four rows against data block j of a code with m rows, 1 / (row + (m + j)) each, in one number.
pub fn weights(m: usize, j: usize, a: u16, b: u16, c: u16, d: u16) -> u64
    requires { m + j < field_size }
    ensures { Packed (weight_of a m j) (weight_of b m j) (weight_of c m j) (weight_of d m j) result }
{
    let y = (m + j) as u16;
    let [p, q, r, s] = gf16::inv_each([a ^ y, b ^ y, c ^ y, d ^ y]);
    pack_four(p, q, r, s)
}

// Twice each of four words, as the field doubles them: one place up, and the polynomial where a word's highest bit was set.
pub fn doubled(x: u64) -> u64
    ensures { Doubled x result }
{
    ((x & LOW_BITS) * 2) ^ ((x / 0x8000 & ONES) * LOW_POLYNOMIAL)
}

// The first n entries once more after them, with x added to each.
pub fn spread(t: &mut [u64; ENTRIES], n: usize, x: u64)
    requires { n + n ≤ 256 }
    ensures { Spread n x t.old t.new }
{
    for i in 0..n {
        t[n + i] = t[i] ^ x;
    }
}

// t[i] = the products of i with the four words of x, by doubling the part that is filled. The answer is 256 times the four.
pub fn fill(t: &mut [u64; ENTRIES], x: u64) -> u64
    ensures { Filled x t.new result }
{
    t[0] = 0;
    let mut power = x;
    // n doubles, so there is no range to count through
    let mut n: usize = 1;
    while n < ENTRIES {
        spread(t, n, power);
        power = doubled(power);
        n = 2 * n;
    }
    power
}

// Four bytes in one number, the low one first, which the compiler reads at once. Bytes are put together and taken apart by hand
// here and in `byte_of`, `word` and the stores below: the promises of this crate say it by products and quotients of 256, and
// std's `from_le_bytes` and `to_le_bytes` are of arrays, which a word of a slice would first be copied to or from.
fn four_bytes(src: &[u8], at: usize) -> u64
    requires { at + 4 ≤ length src.now }
    ensures { result ≡ get_or src.now at 0 + 256 * get_or src.now (at + 1) 0 + 65536 * get_or src.now (at + 2) 0 + 16777216 * get_or src.now (at + 3) 0 }
{
    src[at] as u64
        + 0x100 * (src[at + 1] as u64)
        + 0x1_0000 * (src[at + 2] as u64)
        + 0x100_0000 * (src[at + 3] as u64)
}

fn byte_of(x: u64, unit: u64) -> u8
    requires { 0 < unit }
    ensures { result ≡ x / unit % 256 }
{
    (x / unit % 256) as u8
}

// What the tables have for two words that follow each other.
#[derive(Drop)]
struct TwoLooks {
    first: u64,
    second: u64,
}

fn add_at(acc: &mut [u64], w: usize, x: u64)
    requires { w < length acc.old }
    ensures { acc.new ≡ set acc.old w (bit_xor (get_or acc.old w 0) x) }
{
    acc[w] = acc[w] ^ x;
}

// Two tables of products with four words: for the low byte of a word, and for the high one. What several methods ask of lengths
// is of the slices that are lent to the call, which are no part of this value.
#[derive(Drop)]
pub struct Tables {
    low: [u64; ENTRIES],
    high: [u64; ENTRIES],
}

impl Tables {
    // Room for the products. It is lent, so that it is laid down once for many blocks; what it holds before `fill` does not
    // matter.
    pub fn new() -> Self {
        Tables {
            low: [0; ENTRIES],
            high: [0; ENTRIES],
        }
    }

    // The products with the four words of x.
    fn fill(&mut self, x: u64)
        ensures { FilledBoth x self.new.low self.new.high }
    {
        let up = fill(&mut self.low, x);
        fill(&mut self.high, up);
    }

    // What the two tables have for a word.
    fn look(&self, l: u8, h: u8) -> u64
        ensures { result ≡ bit_xor (get_or self.now.low l 0) (get_or self.now.high h 0) }
    {
        self.low[l as usize] ^ self.high[h as usize]
    }

    fn two_looks(&self, src: &[u8], w: usize) -> TwoLooks
        requires { 2 * w + 4 ≤ length src.now }
        ensures { (result.first ≡ looked self.now.low self.now.high src.now w) × (result.second ≡ looked self.now.low self.now.high src.now (w + 1)) }
    {
        let x = four_bytes(src, 2 * w);
        TwoLooks {
            first: self.look(byte_of(x, 1), byte_of(x, 0x100)),
            second: self.look(byte_of(x, 0x1_0000), byte_of(x, 0x100_0000)),
        }
    }

    // Adds the products of the words w to w + 3 of src to the sums at their places. All are looked up before the first is added,
    // so that the compiler stores the sums by pairs.
    fn add_four(&self, acc: &mut [u64], w: usize, src: &[u8])
        requires { (w + 4 ≤ length acc.old) × (length src.now ≡ 2 * length acc.old) }
        ensures { AddedMore self.now.low self.now.high src.now w (w + 4) acc.old acc.new }
    {
        let p = self.two_looks(src, w);
        let q = self.two_looks(src, w + 2);
        add_at(acc, w, p.first);
        add_at(acc, w + 1, p.second);
        add_at(acc, w + 2, q.first);
        add_at(acc, w + 3, q.second);
    }

    // Adds the products of the words before `end`, eight in a turn.
    fn add_eights(&self, acc: &mut [u64], end: usize, src: &[u8])
        requires { (end % 8 ≡ 0) × (end ≤ length acc.old) × (length src.now ≡ 2 * length acc.old) }
        ensures { AddedTo self.now.low self.now.high src.now end acc.old acc.new }
    {
        // The bar is the old form's count, 161.1 million instructions for an encoding of 1,024 blocks, which this one keeps. By
        // `for`, over a range or in steps, the compiler keeps a second counter and misses it: 163.3 million, 14.2 ms for 14.0.
        let mut w: usize = 0;
        while w < end {
            self.add_four(acc, w, src);
            self.add_four(acc, w + 4, src);
            w += 8;
        }
    }

    // Adds the products of the words from `from` on.
    fn add_rest(&self, acc: &mut [u64], from: usize, src: &[u8])
        requires { (from ≤ length acc.old) × (length src.now ≡ 2 * length acc.old) }
        ensures { AddedMore self.now.low self.now.high src.now from (length acc.old) acc.old acc.new }
    {
        for w in from..acc.len() {
            add_at(acc, w, self.look(src[2 * w], src[2 * w + 1]));
        }
    }

    // Adds the products of each word of src to the sums at its place.
    fn add_words(&self, acc: &mut [u64], src: &[u8])
        requires { length src.now ≡ 2 * length acc.old }
        ensures { AddedBy self.now.low self.now.high src.now acc.old acc.new }
    {
        let eights = acc.len() / 8 * 8;
        self.add_eights(acc, eights, src);
        self.add_rest(acc, eights, src);
    }

    // Adds the products of each word of src with the four words of x to the sums at its place.
    pub fn add_block(&mut self, acc: &mut [u64], src: &[u8], x: u64)
        requires { length src.now ≡ 2 * length acc.old }
        ensures { AddedFour x src.now acc.old acc.new }
    {
        self.fill(x);
        self.add_words(acc, src);
    }

    // Two words into one at each place, by the tables of the numbers that they are multiplied by: rows 0 and 1 of the tables
    // serve.
    fn mix_words(&self, dst: &mut [u8], src: &[u8])
        requires { (length dst.old ≡ length src.now) × (length dst.old % 2 ≡ 0) }
        ensures { MixedBy self.now.low self.now.high dst.old src.now dst.new }
    {
        for w in 0..dst.len() / 2 {
            let p = self.look(dst[2 * w], dst[2 * w + 1]);
            let q = self.look(src[2 * w], src[2 * w + 1]);
            let v = (p % 0x1_0000) ^ (q / 0x1_0000 % 0x1_0000);
            dst[2 * w] = (v % 256) as u8;
            dst[2 * w + 1] = (v / 256 % 256) as u8;
        }
    }

    // Each word of dst becomes row 0 of its products, and row 1 of them is added to the word of one at the same place.
    fn scale_words(&self, dst: &mut [u8], one: &mut [u8])
        requires { (length dst.old ≡ length one.old) × (length dst.old % 2 ≡ 0) }
        ensures { ScaledBy self.now.low self.now.high dst.old one.old dst.new one.new }
    {
        for w in 0..dst.len() / 2 {
            let p = self.look(dst[2 * w], dst[2 * w + 1]);
            let v = p % 0x1_0000;
            let u = word(one[2 * w], one[2 * w + 1]) ^ (p / 0x1_0000 % 0x1_0000);
            dst[2 * w] = (v % 256) as u8;
            dst[2 * w + 1] = (v / 256 % 256) as u8;
            one[2 * w] = (u % 256) as u8;
            one[2 * w + 1] = (u / 256 % 256) as u8;
        }
    }
}

// A word of two bytes.
fn word(l: u8, h: u8) -> u64
    ensures { (result ≡ l + 256 * h) × (result < 65536) }
{
    l as u64 + 256 * (h as u64)
}

// c times each word of dst, plus d times the word of src at the same place.
pub fn mix(dst: &mut [u8], src: &[u8], c: u16, d: u16)
    requires { (length dst.old ≡ length src.now) × (length dst.old % 2 ≡ 0) }
    ensures { dst.new ≡ word_bytes (mixed_word c d dst.old src.now) 0 (length dst.old / 2) }
{
    let mut tables = Tables::new();
    tables.fill(pack_four(c, d, 0, 0));
    tables.mix_words(dst, src);
}

// d times each word of dst is added to the word of one at the same place, and dst is multiplied by c.
pub fn scale(dst: &mut [u8], one: &mut [u8], c: u16, d: u16)
    requires { (length dst.old ≡ length one.old) × (length dst.old % 2 ≡ 0) }
    ensures { (dst.new ≡ word_bytes (times_word c dst.old) 0 (length dst.old / 2)) × (one.new ≡ word_bytes (plus_times d one.old dst.old) 0 (length dst.old / 2)) }
{
    let mut tables = Tables::new();
    tables.fill(pack_four(c, d, 0, 0));
    tables.scale_words(dst, one);
}

// dst is multiplied by c, without tables: an unknown is multiplied once, and to fill two tables would cost short ranges more.
pub fn times(dst: &mut [u8], c: u16)
    requires { length dst.old % 2 ≡ 0 }
    ensures { dst.new ≡ word_bytes (times_word c dst.old) 0 (length dst.old / 2) }
{
    for w in 0..dst.len() / 2 {
        let v = gf16::mul(c, word(dst[2 * w], dst[2 * w + 1]) as u16);
        dst[2 * w] = (v % 256) as u8;
        dst[2 * w + 1] = (v / 256) as u8;
    }
}

// Adds src to dst.
pub fn add_bytes(dst: &mut [u8], src: &[u8])
    requires { length dst.old ≡ length src.now }
    ensures { Summed dst.old src.now dst.new }
{
    for (i, d) in dst.iter_mut().enumerate() {
        *d ^= src[i];
    }
}
