// The block request: one data block, held or rebuilt, for an operator who cannot wait. It is never verified.
ghost use Rattle.std.specs.Prelude.{◌≡◌, ◌≤◌, ◌<◌, length};
ghost use Rattle.cauchy.specs.Decode.{decode};
ghost use Rattle.sfc.specs.inner.Gather.{Rebuildable, can_be_had, SameLengths, put_if};
ghost use Rattle.sfc.specs.session.Lent.{lent_of};
ghost use Rattle.sfc.specs.give.HandOut.{rebuilt};
ghost use Rattle.sfc.specs.give.Block.{block_request};

use crate::answer::checks::refuse_if;
use crate::answer::places::{BlockNumber, BytePlace};
use crate::answer::reason::Reason;
use crate::format::header::Head;
use crate::give::rebuild::rebuild_missing;
use crate::session::marks::HELD;

// The block asked for, and the place of its first byte in the content. It is unverified, whatever else is known.
#[derive(Clone, Copy, PartialEq, Eq, Debug)]
pub struct UnverifiedBlock {
    pub number: BlockNumber,
    pub at: BytePlace,
}

// Past 71, 53 and 52: data block j to the output's front, and whether it could be had. A bool and no Result: the answer is the
// test itself, and `put_if` of the promise and `refuse_if` take it as one. Lent as the call below is.
fn give_block(
    h: &Head,
    j: u32,
    store: &[u8],
    marks: &[u8],
    scratch: &mut [u8],
    numbers: &mut [u16],
    out: &mut [u8],
) -> bool
    requires { Rebuildable h.now.n h.now.m h.now.s store.now marks.now scratch.old numbers.old × (j < h.now.n) × (h.now.s ≤ length out.old) }
    ensures { (result ≡ can_be_had h.now.n marks.now j) × (out.new ≡ put_if result out.old (decode h.now.n h.now.m h.now.s marks.now store.now j)) × SameLengths scratch.old scratch.new numbers.old numbers.new }
{
    let i = j as usize;
    let width = h.s as usize;
    if marks[i] == HELD {
        let at = i * width;
        let end = at + width;
        out[..width].copy_from_slice(&store[at..end]);
        return true;
    }
    if !rebuild_missing(h, store, marks, scratch, numbers) {
        return false;
    }
    let row = i - cauchy::held_count(&marks[..i]);
    let at = row * width;
    let end = at + width;
    out[..width].copy_from_slice(&scratch[at..end]);
    true
}

// Scratch is all zeros after every answer but 71, 53 and 52, which leave it; the output past the block stays as it was. Memory
// is lent one by one: session/lent.rt says why.
pub fn block(
    h: Head,
    number: BlockNumber,
    store: &[u8],
    marks: &[u8],
    scratch: &mut [u8],
    numbers: &mut [u16],
    out: &mut [u8],
) -> Result<UnverifiedBlock, Reason>
    ensures { rebuilt result scratch.new numbers.new out.new ≡ block_request h store.now marks.now number.0 (lent_of scratch.old numbers.old out.old) }
{
    let wrong = h.is_rebuild_wrong(store, marks, scratch.len(), numbers.len());
    let j = number.0;
    refuse_if(wrong, Reason::Lent)?;
    refuse_if(h.n <= j, Reason::NoDataBlock)?;
    refuse_if(out.len() < h.s as usize, Reason::OutputShort)?;
    let given = give_block(&h, j, store, marks, scratch, numbers, out);
    little::clear(scratch);
    little::clear(numbers);
    refuse_if(!given, Reason::Few)?;
    Ok(UnverifiedBlock {
        number: BlockNumber(j),
        at: BytePlace(j * h.s),
    })
}
