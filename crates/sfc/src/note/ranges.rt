// The ranges that the unknown data indices make: counted, listed, and written as a note has them.
ghost use Rattle.std.specs.Prelude.{◌≡◌, ℕ, List, true, false, [], ◌∷◌, ◌++◌, ◌+◌, ◌*◌, ◌<◌, ◌≤◌, ◌^◌, length, drop};
ghost use Rattle.little.specs.Parts.{put};
ghost use Rattle.sfc.specs.answer.Numbers.{answered};
ghost use Rattle.sfc.specs.note.Missing.{unheld_from};
ghost use Rattle.sfc.specs.note.Ranges.{Range, ranges, bounds, list_ranges};
ghost use Rattle.sfc.specs.inner.Index.{IndexPut, Layout};
ghost use Rattle.sfc.specs.note.Note.{big_bytes, pairs_bytes};

use crate::answer::checks::refuse_if;
use crate::answer::reason::Reason;
use crate::format::header::Head;
use crate::note::big::put_big;
use crate::note::layout::{INDEX_BYTES, PAIRS_AT};
use crate::note::missing::open_marks;
use crate::session::marks::HELD;

// How many ranges the marks that do not say held make; `joined` tells whether one of them begins at i.
pub(crate) fn count_ranges(marks: &[u8]) -> usize
    ensures { result ≡ length (ranges (unheld_from 0 marks.now)) }
{
    let mut count = 0;
    let mut joined = false;
    for mark in marks.iter().rev() {
        let unheld = *mark != HELD;
        if unheld & !joined {
            count += 1;
        }
        joined = unheld;
    }
    count
}

// What ranges are written in, bound after bound: the bytes of a note, or numbers. `held` is what an output of them has, `place`
// where a bound stands in it, `written` how an index is written there, and `lay` how ranges are.
trait Entry: Copy {
    ghost held: { List Self → List ℕ };

    ghost place: { ℕ → ℕ };

    ghost written: { ℕ → List ℕ };

    ghost lay: { List Range → List ℕ };

    // Writes index i as bound b.
    fn put_bound(out: &mut [Self], b: usize, i: u32)
        requires { place (b + 1) ≤ length (held out.old) }
        ensures { held out.new ≡ put (held out.old) (place b) (written i) };
}

impl Entry for u8 {
    ghost held = { λ out. out };

    ghost place = { λ b. 23 + 4 * b };

    ghost written = { big_bytes 4 };

    ghost lay = { pairs_bytes };

    fn put_bound(out: &mut [u8], b: usize, i: u32) {
        put_big(out, PAIRS_AT + INDEX_BYTES * b, INDEX_BYTES, i);
    }
}

impl Entry for u32 {
    ghost held = { λ out. out };

    ghost place = { λ b. b };

    ghost written = { λ i. i ∷ [] };

    ghost lay = { bounds };

    fn put_bound(out: &mut [u32], b: usize, i: u32) {
        out[b] = i;
    }
}

// Puts index i before pair k, as the first of that pair or as a pair of its own, and gives the place of its pair.
fn put_index<E: Entry>(out: &mut [E], k: usize, i: u32, joined: bool) -> usize
    requires laid { Layout E.lay E.place E.written }
    requires room { (k < 2 ^ 32) × (E.place (2 * k) ≤ length (E.held out.old)) × (joined ≡ true → E.place (2 * k + 1) ≤ length (E.held out.old)) × (joined ≡ false → 0 < k) }
    ensures kept { length (E.held out.new) ≡ length (E.held out.old) }
    ensures before { IndexPut (λ k. E.place (2 * k)) (E.written i) (E.held out.old) (E.held out.new) k result joined }
{
    if joined {
        E::put_bound(out, 2 * k, i);
        return k;
    }
    let own = k - 1;
    E::put_bound(out, 2 * own + 1, i);
    E::put_bound(out, 2 * own, i);
    own
}

// The ranges, from the last to the first: where each stands is known from their count.
fn put_ranges<E: Entry>(marks: &[u8], count: usize, out: &mut [E])
    requires laid { Layout E.lay E.place E.written }
    requires room { (length marks.now < 2 ^ 32) × (count ≡ length (ranges (unheld_from 0 marks.now))) × (E.place (2 * count) ≤ length (E.held out.old)) }
    ensures kept { length (E.held out.new) ≡ length (E.held out.old) }
    ensures after { drop (E.place 0) (E.held out.new) ≡ E.lay (ranges (unheld_from 0 marks.now)) ++ drop (E.place (2 * count)) (E.held out.old) }
{
    let mut k = count;
    let mut joined = false;
    for (i, mark) in marks.iter().enumerate().rev() {
        if *mark == HELD {
            joined = false;
        } else {
            k = put_index(out, k, i as u32, joined);
            joined = true;
        }
    }
}

// The pairs of a note.
pub(crate) fn put_range_bytes(marks: &[u8], count: usize, out: &mut [u8])
    requires { (length marks.now < 2 ^ 32) × (count ≡ length (ranges (unheld_from 0 marks.now))) × (23 + 8 * count ≤ length out.old) }
    ensures { drop 23 out.new ≡ pairs_bytes (ranges (unheld_from 0 marks.now)) ++ drop (23 + 8 * count) out.old }
{
    put_ranges(marks, count, out);
}

// First and last of each range.
fn put_range_bounds(marks: &[u8], count: usize, out: &mut [u32])
    requires { (length marks.now < 2 ^ 32) × (count ≡ length (ranges (unheld_from 0 marks.now))) × (2 * count ≤ length out.old) }
    ensures { out.new ≡ put out.old 0 (bounds (ranges (unheld_from 0 marks.now))) }
{
    put_ranges(marks, count, out);
}

// First and last of each range of the unknown data indices, one pair after the other; the count is of entries, two
// for each range.
pub fn list_ranges(h: Head, marks: &[u8], out: &mut [u32]) -> Result<usize, Reason>
    ensures { answered result out.new ≡ list_ranges h marks.now out.old }
{
    refuse_if(h.is_marks_wrong(marks), Reason::Lent)?;
    let among = open_marks(h.n, marks);
    let count = count_ranges(&marks[..among]);
    let length = 2 * count;
    refuse_if(out.len() < length, Reason::OutputShort)?;
    put_range_bounds(&marks[..among], count, out);
    Ok(length)
}
