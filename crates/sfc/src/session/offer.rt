// The session: an offer of a chunk, and what it makes of store, marks, tallies and what was rebuilt.
ghost use Rattle.std.specs.Prelude.{◌≡◌, true, ◌+◌, ◌*◌, length};
ghost use Rattle.sfc.specs.session.Session.{session_of, spot_of};
ghost use Rattle.sfc.specs.session.Offer.{restarts, scratch_after, finished_after, logged_of, offered_of, offered};
ghost use Rattle.sfc.specs.inner.Steps.{Stepped, stepped, Welcome, judged_of, judged};
ghost use Rattle.sfc.specs.inner.Spots.{Fitting};

use crate::answer::places::{BlockNumber, BytePlace, ColumnCount};
use crate::answer::reason::Reason;
use crate::format::chunk::{check_all, index_of};
use crate::format::header::Head;
use crate::format::layout::CHUNK_HEADER;
use crate::format::spot::spot_for;
use crate::session::marks::{ABSENT, BARRED, HELD};
use crate::session::tallies::{Tallies, is_full, with_fresh, with_refusal, with_repeat};

// What an offer came to: the block, and its place in the store; or the reason of a refusal. Document 01 names the form of this
// type and of the next.
#[derive(Clone, Copy, PartialEq, Eq, Debug)]
pub enum Verdict {
    Fresh(BlockNumber, BytePlace),
    Repeat(BlockNumber, BytePlace),
    Refused(Reason),
}

// The verdict, the tallies after it, where a refused chunk broke, and how many rebuilt columns still count.
#[derive(Clone, Copy)]
pub struct OfferAnswer {
    pub verdict: Verdict,
    pub tallies: Tallies,
    pub spot: Option<BytePlace>,
    pub finished: ColumnCount,
}

// What the session makes of a chunk, before the place is found: a verdict, which is no flag, and the tallies after it, by value.
#[derive(Drop)]
struct Judgement {
    verdict: Verdict,
    tallies: Tallies,
}

// What a payload met at its block.
#[derive(Drop)]
enum Step {
    Laid,
    Copy,
    Differs,
    Barred,
}

// One block meets a payload of its length.
fn offer_block(block: &mut [u8], mark: u8, payload: &[u8]) -> Step
    requires { length block.old ≡ length payload.now }
    ensures { ◌≡◌ {A = Stepped} (record { block = block.new; step = result }) (stepped mark block.old payload.now) }
{
    if mark == ABSENT {
        block.copy_from_slice(payload);
        return Step::Laid;
    }
    if mark == HELD {
        if little::is_same(block, payload) {
            return Step::Copy;
        }
        little::clear(block);
        return Step::Differs;
    }
    Step::Barred
}

fn refused(reason: Reason, tallies: Tallies) -> Judgement
    ensures { result ≡ record { verdict = Verdict.Refused reason; tallies = tallies } }
{
    Judgement {
        verdict: Verdict::Refused(reason),
        tallies,
    }
}

// A chunk that passed every check of its own meets its block; lent as the offer is.
fn offer_whole(
    h: Head,
    tallies: Tallies,
    store: &mut [u8],
    marks: &mut [u8],
    chunk: &[u8],
) -> Judgement
    requires { Welcome h (session_of store.old marks.old tallies) chunk.now }
    ensures { judged_of store.new marks.new result.tallies result.verdict ≡ judged h (session_of store.old marks.old tallies) chunk.now }
{
    let index = index_of(chunk);
    let i = index as usize;
    let width = h.s as usize;
    let at = i * width;
    let end = at + width;
    let stop = CHUNK_HEADER + width;
    let step = offer_block(&mut store[at..end], marks[i], &chunk[CHUNK_HEADER..stop]);
    let place = at as u32;
    match step {
        Step::Laid => {
            marks[i] = HELD;
            Judgement {
                verdict: Verdict::Fresh(BlockNumber(index), BytePlace(place)),
                tallies: with_fresh(tallies),
            }
        }
        Step::Copy => Judgement {
            verdict: Verdict::Repeat(BlockNumber(index), BytePlace(place)),
            tallies: with_repeat(tallies),
        },
        Step::Differs => {
            marks[i] = BARRED;
            refused(Reason::Conflict, with_refusal(tallies, Reason::Conflict))
        }
        Step::Barred => refused(Reason::Barred, with_refusal(tallies, Reason::Barred)),
    }
}

// 71, 43, the checks of the chunk, and then its block; lent as the offer is.
fn offer_chunk(
    h: Head,
    tallies: Tallies,
    store: &mut [u8],
    marks: &mut [u8],
    chunk: &[u8],
) -> Judgement
    ensures { judged_of store.new marks.new result.tallies result.verdict ≡ judged h (session_of store.old marks.old tallies) chunk.now }
{
    if h.is_lent_wrong(store, marks) {
        return refused(Reason::Lent, tallies);
    }
    if is_full(tallies) {
        return refused(Reason::TallyFull, tallies);
    }
    let checked = check_all(h, chunk);
    match checked {
        Err(reason) => refused(reason, with_refusal(tallies, reason)),
        Ok(()) => offer_whole(h, tallies, store, marks, chunk),
    }
}

// What was refused broke at the place of its number.
fn spot_of(h: Head, chunk: &[u8], verdict: Verdict) -> Option<BytePlace>
    requires { Fitting chunk.now verdict }
    ensures { result ≡ spot_of h chunk.now verdict }
{
    match verdict {
        Verdict::Fresh(_, _) => None,
        Verdict::Repeat(_, _) => None,
        Verdict::Refused(reason) => spot_for(h, chunk, reason),
    }
}

// Whether other blocks are held than before: a copy that differs bars its index.
fn is_restart(verdict: Verdict) -> bool
    ensures { result ≡ restarts verdict }
{
    match verdict {
        Verdict::Fresh(_, _) => true,
        Verdict::Repeat(_, _) => false,
        Verdict::Refused(reason) => reason == Reason::Conflict,
    }
}

// Then what was rebuilt is void.
fn finished_after(verdict: Verdict, scratch: &mut [u8], finished: ColumnCount) -> ColumnCount
    ensures { (scratch.new ≡ scratch_after scratch.old verdict) × (result.0 ≡ finished_after finished.0 verdict) }
{
    if !is_restart(verdict) {
        return finished;
    }
    little::clear(scratch);
    ColumnCount(0)
}

// Any bytes may be offered as a chunk. Store and marks change only with a fresh chunk, and with a copy that differs; scratch and
// the finished columns of a rebuild are zeros after these, and else stay. Memory is lent one by one: session/lent.rt says why.
pub fn offer(
    h: Head,
    tallies: Tallies,
    store: &mut [u8],
    marks: &mut [u8],
    scratch: &mut [u8],
    finished: ColumnCount,
    chunk: &[u8],
) -> OfferAnswer
    ensures { offered_of (logged_of store.new marks.new result.tallies scratch.new result.finished.0) result.verdict result.spot ≡ offered h (logged_of store.old marks.old tallies scratch.old finished.0) chunk.now }
{
    if h.is_rebuilding_wrong(scratch, finished.0) {
        return OfferAnswer {
            verdict: Verdict::Refused(Reason::Lent),
            tallies,
            spot: None,
            finished,
        };
    }
    let judgement = offer_chunk(h, tallies, store, marks, chunk);
    let verdict = judgement.verdict;
    let counted = judgement.tallies;
    let spot = spot_of(h, chunk, verdict);
    OfferAnswer {
        verdict,
        tallies: counted,
        spot,
        finished: finished_after(verdict, scratch, finished),
    }
}
