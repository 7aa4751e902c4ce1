// The prefix: what is held from the file's start without a gap, for an operator who cannot wait. It is never verified.
ghost use Rattle.std.specs.Prelude.{◌≡◌};
ghost use Rattle.sfc.specs.answer.Numbers.{answered};
ghost use Rattle.sfc.specs.give.Prefix.{leading, prefix_given};

use crate::answer::checks::refuse_if;
use crate::answer::places::{BlockNumber, BytePlace};
use crate::answer::reason::Reason;
use crate::format::header::Head;
use crate::session::marks::HELD;

// How many data blocks are given, which is also the index of the first that is not (N where all are), and how many bytes that
// is. It is unverified, whatever else is known.
#[derive(Clone, Copy, PartialEq, Eq, Debug)]
pub struct UnverifiedPrefix {
    pub blocks: BlockNumber,
    pub end: BytePlace,
}

// How many marks stand before the first that is not held.
fn count_leading(marks: &[u8]) -> usize
    ensures { result ≡ leading marks.now }
{
    marks.iter().take_while(|mark| **mark == HELD).count()
}

// Only 71 and 52 refuse it. The output past the prefix stays as it was. Memory is lent one by one: session/lent.rt says why.
pub fn prefix(
    h: Head,
    store: &[u8],
    marks: &[u8],
    out: &mut [u8],
) -> Result<UnverifiedPrefix, Reason>
    ensures { answered result out.new ≡ prefix_given h store.now marks.now out.old }
{
    let wrong = h.is_lent_wrong(store, marks);
    refuse_if(wrong, Reason::Lent)?;
    let data = h.n as usize;
    let blocks = count_leading(&marks[..data]);
    let end = little::least(h.size as usize, blocks * h.s as usize);
    refuse_if(out.len() < end, Reason::OutputShort)?;
    out[..end].copy_from_slice(&store[..end]);
    Ok(UnverifiedPrefix {
        blocks: BlockNumber(blocks as u32),
        end: BytePlace(end as u32),
    })
}
