// The walk of a listing: the chunks of a file are offered one after the other, and where one is refused its line is put.
ghost use Rattle.std.specs.Prelude.{◌+◌, ◌≤◌, length};
ghost use Rattle.sfc_listing.specs.Lent.{session_in, logged_in, SameDesk, SameSession};
ghost use Rattle.sfc_listing.specs.Page.{HasRoom};
ghost use Rattle.sfc_listing.specs.Steps.{chunks_room, OfferTold, ChunksTold, StopTold, Tellable, OffersTold};

use crate::desk::Desk;
use crate::lent::LentSession;
use crate::page::Page;
use sfc::{ColumnCount, Head, Tallies, offer};
use sfc_walk::length_at_front;

impl<'a> LentSession<'a> {
    // An offer, and its line where it is refused; `own` is where the chunk begins in the file.
    fn tell_offer(&mut self, chunk: &[u8], own: usize, page: &mut Page<'_>)
        requires own { own ≤ 65536 }
        requires room { HasRoom 50 page.old }
        ensures memory { SameSession self.old self.new }
        ensures told { OfferTold self.old.head (session_in self.old) chunk.now own page.old (logged_in self.new) page.new }
    {
        let answer = offer(
            self.head,
            self.tallies,
            self.store,
            self.marks,
            self.scratch,
            self.finished,
            chunk,
        );
        self.tallies = answer.tallies;
        self.finished = answer.finished;
        page.put_verdict(answer.verdict, answer.spot, own);
    }

    // As `sfc_walk::offer_chunks`, with the refusals told on the way: how a chunk is answered hangs on those before it. Each
    // chunk says how long it is, so no iterator cuts them. The first byte has place `from` in the file; the answer is the place
    // of the first byte that belongs to no chunk.
    fn tell_chunks(&mut self, bytes: &[u8], from: usize, page: &mut Page<'_>) -> usize
        requires near { from + length bytes.now ≤ 65536 }
        requires room { HasRoom chunks_room page.old }
        ensures memory { SameSession self.old self.new }
        ensures told { ChunksTold self.old.head (session_in self.old) bytes.now from page.old (logged_in self.new) result page.new }
    {
        let mut at = 0;
        while let Some(length) = length_at_front(self.head, &bytes[at..]) {
            let end = at + length;
            self.tell_offer(&bytes[at..end], from + at, page);
            at = end;
        }
        at
    }

    // What is left after the last chunk is no chunk, and is told as one that is refused; where nothing is left, the trailer
    // comes.
    fn tell_stop(&mut self, rest: &[u8], from: usize, page: &mut Page<'_>)
        requires near { from ≤ 65536 }
        requires room { HasRoom 50 page.old }
        ensures memory { SameSession self.old self.new }
        ensures told { StopTold self.old.head (session_in self.old) rest.now from page.old self.new.store.now self.new.marks.now page.new }
    {
        if rest.is_empty() {
            return;
        }
        self.tell_offer(rest, from, page);
    }
}

// All offers of a listing, to a blank session. Nothing is rebuilt before the last of them, so scratch may hold anything.
pub(crate) fn tell_offers(
    h: Head,
    chunks: &[u8],
    from: usize,
    desk: &mut Desk<'_>,
    page: &mut Page<'_>,
)
    requires { Tellable h desk.old.store.now desk.old.marks.now desk.old.scratch.now chunks.now from page.old }
    ensures memory { SameDesk desk.old desk.new }
    ensures told { OffersTold h chunks.now from page.old desk.new.store.now desk.new.marks.now page.new }
{
    desk.store.fill(0);
    desk.marks.fill(0);
    let mut session = LentSession {
        head: h,
        tallies: Tallies::new(),
        store: &mut *desk.store,
        marks: &mut *desk.marks,
        scratch: &mut *desk.scratch,
        finished: ColumnCount(0),
    };
    let end = session.tell_chunks(chunks, from, page);
    session.tell_stop(&chunks[end..], from + end, page);
}
