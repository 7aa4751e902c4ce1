// The right sides of the equations, from the held blocks: the sums over data blocks are made four rows at a time.
ghost use Rattle.std.specs.Prelude.{◌≡◌, ℕ, ◌+◌, ◌*◌, ◌/◌, ◌%◌, ◌≤◌, ◌<◌, length, get_or, take, drop};
ghost use Rattle.std.specs.Int.Bits.{bit_xor};
ghost use Rattle.little.specs.Fields.{Bytes};
ghost use Rattle.cauchy.specs.Code.{most_recovery, field_size, word_at, word_bytes};
ghost use Rattle.cauchy.specs.Decode.{missing_nodes};
ghost use Rattle.cauchy.specs.inner.Packed.{Added, Sums, weight_of, unit_of, held_rows, SumsFor};
ghost use Rattle.cauchy.specs.inner.Ranges.{sides_scratch, SidesCopied};

use crate::encode::put_one;
use crate::limits::{HELD, MOST_RECOVERY, MOST_WORDS};
use crate::ranges::Range;
use crate::shape::Code;
use crate::tables::{Tables, add_bytes, weights};

// Adds what data block j brings to the rows listed at i to i + 3: as `add_share`, but the rows need not follow each other. All of
// `rows` is lent, with a place in it, since what is known of the sums speaks of places in the whole list.
pub fn add_listed(
    m: usize,
    i: usize,
    j: usize,
    rows: &[u16],
    acc: &mut [u64],
    src: &[u8],
    tables: &mut Tables,
)
    requires { (i + 3 < length rows.now) × (m + j < field_size) × (length src.now ≡ 2 * length acc.old) }
    ensures { Added (weight_of (get_or rows.now i 0) m j) (weight_of (get_or rows.now (i + 1) 0) m j) (weight_of (get_or rows.now (i + 2) 0) m j) (weight_of (get_or rows.now (i + 3) 0) m j) src.now acc.old acc.new }
{
    let x = weights(m, j, rows[i], rows[i + 1], rows[i + 2], rows[i + 3]);
    tables.add_block(acc, src, x);
}

// Word r of each four, with the word of `block` at the same place added.
pub fn put_side(acc: &[u64], r: usize, block: &[u8], out: &mut [u8])
    requires { (r < 4) × (length block.now ≡ 2 * length acc.now) × (length out.old ≡ 2 * length acc.now) }
    ensures { out.new ≡ word_bytes (λ w. bit_xor (get_or acc.now w 0 / unit_of r % 65536) (word_at block.now (2 * w))) 0 (length acc.now) }
{
    put_one(acc, r, out);
    add_bytes(out, block);
}

// A store in which blocks are missing, the words of them that are asked for, and the recovery blocks that are used for the
// missing data blocks, one for each: the first e of those listed. All the room for the list is lent beside e, since rows are
// summed by fours. What several methods ask of a length is of a slice that is lent to the call and is no part of this value.
#[derive(Drop)]
pub struct Damaged<'a> {
    pub code: Code,
    pub range: Range,
    pub store: &'a [u8],
    pub marks: &'a [u8],
    pub rows: &'a [u16],
    pub e: usize,
    ghost same: { range.s ≡ code.s },
    ghost store_long: { length store.now ≡ (code.n + code.m) * code.s },
    ghost marks_long: { length marks.now ≡ code.n + code.m },
    ghost rows_long: { length rows.now ≡ most_recovery },
    ghost rows_below: { (i : ℕ) → i < e → get_or rows.now i 0 < code.m },
    ghost row_words: { (i : ℕ) → get_or rows.now i 0 < field_size },
    ghost bytes: { Bytes store.now },
    ghost few: { e ≤ most_recovery },
    ghost each: { e ≡ length (missing_nodes code.n code.m marks.now) },
}

// That scratch has room for e blocks stands with each step: it is lent beside, and no part of the damaged store.
impl<'a> Damaged<'a> {
    // The shares of the held data blocks in the rows listed at i to i + 3. A block that is not held is not read.
    fn sum_held(&self, i: usize, acc: &mut [u64])
        requires { (length acc.old ≡ self.now.range.count) × (i + 3 < most_recovery) }
        ensures { Sums (held_rows self.now.code.n self.now.code.m self.now.code.s self.now.range.first self.now.marks.now self.now.rows.now self.now.store.now) i (length acc.old) acc.new }
    {
        let mut tables = Tables::new();
        acc.fill(0);
        for j in 0..self.code.n {
            if self.marks[j] == HELD {
                let at = self.range.place(j);
                let end = at + self.range.width();
                let block = &self.store[at..end];
                add_listed(self.code.m, i, j, self.rows, acc, block, &mut tables);
            }
        }
    }

    // The same at each fourth row; the three rows after it have their sums already.
    fn sums_for(&self, i: usize, acc: &mut [u64])
        requires { (length acc.old ≡ self.now.range.count) × (i < most_recovery) }
        ensures { SumsFor self.now.code.n self.now.code.m self.now.code.s self.now.range.first i self.now.marks.now self.now.rows.now self.now.store.now acc.old acc.new }
    {
        if i % 4 == 0 {
            self.sum_held(i, acc);
        }
    }

    // The words asked for of the recovery block of row i.
    fn own_words(&self, i: usize) -> &'a [u8]
        requires { i < self.now.e }
        ensures long { length result.now ≡ 2 * self.now.range.count }
        ensures words { result.now ≡ take (2 * self.now.range.count) (drop ((self.now.code.n + get_or self.now.rows.now i 0) * self.now.code.s + 2 * self.now.range.first) self.now.store.now) }
    {
        let at = self.range.place(self.code.n + self.rows[i] as usize);
        &self.store[at..at + self.range.width()]
    }

    // The right sides of the rows, into the words asked for of as many blocks of scratch: the held data blocks' shares, and the
    // recovery block's own words.
    fn put_sides(&self, scratch: &mut [u8])
        requires { self.now.e * self.now.code.s ≤ length scratch.old }
        ensures { scratch.new ≡ sides_scratch self.now.code.n self.now.code.m self.now.code.s self.now.range.first self.now.range.count self.now.e self.now.marks.now self.now.rows.now self.now.store.now scratch.old }
    {
        let mut sums = [0u64; MOST_WORDS];
        let acc = &mut sums[..self.range.count];
        for i in 0..self.e {
            self.sums_for(i, acc);
            let own = self.own_words(i);
            let at = self.range.place(i);
            let end = at + self.range.width();
            put_side(acc, i % 4, own, &mut scratch[at..end]);
        }
    }

    // The right sides where no data block is held: the recovery blocks' own words, with nothing to take off them.
    fn copy_sides(&self, scratch: &mut [u8])
        requires { self.now.e * self.now.code.s ≤ length scratch.old }
        ensures { SidesCopied self.now.code.n self.now.code.m self.now.code.s self.now.range.first self.now.range.count self.now.e self.now.rows.now self.now.store.now scratch.old scratch.new }
    {
        for i in 0..self.e {
            let own = self.own_words(i);
            let at = self.range.place(i);
            let end = at + self.range.width();
            scratch[at..end].copy_from_slice(own);
        }
    }

    // The right sides, with room for sums only where there is something to add up.
    pub fn lay_sides(&self, scratch: &mut [u8])
        requires { self.now.e * self.now.code.s ≤ length scratch.old }
        ensures { scratch.new ≡ sides_scratch self.now.code.n self.now.code.m self.now.code.s self.now.range.first self.now.range.count self.now.e self.now.marks.now self.now.rows.now self.now.store.now scratch.old }
    {
        if self.e == self.code.n {
            self.copy_sides(scratch);
            return;
        }
        self.put_sides(scratch);
    }
}
