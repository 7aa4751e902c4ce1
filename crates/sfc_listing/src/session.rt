// The session of a listing: what the chunks of a file came to.
ghost use Rattle.std.specs.Prelude.{◌≡◌, false, ◌+◌, ◌≤◌, length};
ghost use Rattle.sfc.specs.session.Lent.{lent_of, lent_wrong, rebuild_wrong};
ghost use Rattle.sfc.specs.session.Session.{session_of};
ghost use Rattle.sfc.specs.session.Tallies.{no_tallies};
ghost use Rattle.sfc_listing.specs.Listing.{last_word, end_text, session_text};
ghost use Rattle.sfc_listing.specs.Lent.{on_desk};
ghost use Rattle.sfc_listing.specs.Lines.{word_of, end_room};
ghost use Rattle.sfc_listing.specs.Page.{HasRoom, Puts};
ghost use Rattle.sfc_listing.specs.Steps.{text_room, Ready};

use crate::desk::Desk;
use crate::lines::LastWord;
use crate::page::Page;
use crate::refusals::tell_offers;
use sfc::{ColumnCount, Head, Reason, count_marks, list_ranges, rebuild_turn, release};

// What a turn for all columns and a release answer. The pieces of the desk come one by one, since the bounds are told beside the
// word: a desk that is spent would take them along, and one that `report` lends by `&mut` the borrow checker does not cover.
fn last_word(
    h: Head,
    store: &[u8],
    marks: &[u8],
    scratch: &mut [u8],
    numbers: &mut [u16],
    content: &mut [u8],
) -> LastWord
    requires { (rebuild_wrong h store.now marks.now (lent_of scratch.old numbers.old content.old) ≡ false) × (h.size ≤ length content.old) }
    ensures { word_of result ≡ last_word h (session_of store.now marks.now no_tallies) }
{
    let whole = h.s / 2;
    let none = ColumnCount(0);
    let turn = rebuild_turn(h, store, marks, scratch, numbers, none, whole);
    let released = release(h, store, marks, scratch, turn.finished, content);
    match released.handed {
        Ok(_) => LastWord::Complete,
        Err(reason) => match reason {
            Reason::ContentHash => LastWord::HashDiffers,
            _ => LastWord::Incomplete,
        },
    }
}

// The end of the listing: what is told of a session as it stands. Marks that are right are never refused.
fn report(h: Head, desk: Desk<'_>, page: &mut Page<'_>)
    requires ready { Ready h (on_desk desk) }
    requires lent { lent_wrong h.size h.n h.m h.s desk.store.now desk.marks.now ≡ false }
    requires room { HasRoom end_room page.old }
    ensures { Puts end_room page.old (end_text h (session_of desk.entry.store.now desk.entry.marks.now no_tallies)) page.new }
{
    let Desk {
        store,
        marks,
        scratch,
        numbers,
        content,
        bounds,
    } = desk;
    let counted = count_marks(h, marks).unwrap();
    let count = list_ranges(h, marks, bounds).unwrap();
    let last = last_word(h, store, marks, scratch, numbers, content);
    page.put_end(counted, &bounds[..count], last);
}

// The listing of the session that the chunks of an accepted header make; the first of them stands at place `from` of the file.
// All lines fit: 153 bytes, the refused ones, and the end.
pub(crate) fn list_session(h: Head, chunks: &[u8], from: usize, desk: Desk<'_>, page: &mut Page<'_>)
    requires ready { Ready h (on_desk desk) }
    requires near { from + length chunks.now ≤ 65536 }
    requires room { HasRoom text_room page.old }
    ensures { Puts text_room page.old (session_text h from chunks.now) page.new }
{
    page.put_head(h);
    let mut desk = desk;
    tell_offers(h, chunks, from, &mut desk, page);
    report(h, desk, page);
}
