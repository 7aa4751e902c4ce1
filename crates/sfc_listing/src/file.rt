// The listing of a file: what it holds, as the lines of text that a program prints.
ghost use Rattle.std.specs.Prelude.{◌≡◌, false, ◌≤◌, length, Ok};
ghost use Rattle.sfc.specs.format.Header.{read_header};
ghost use Rattle.sfc_listing.specs.Listing.{desk_wrong, listing_of, listed_of, listed};
ghost use Rattle.sfc_listing.specs.Lent.{on_desk, SameDesk};
ghost use Rattle.sfc_listing.specs.Page.{HasRoom, Puts};
ghost use Rattle.sfc_listing.specs.Steps.{text_room, accepted_text};

use crate::desk::Desk;
use crate::page::Page;
use crate::room::{AFTER_LENGTH, BLOCKS_MOST, FILE_MOST, LENGTH_AT, TEXT, TRAILER};
use crate::session::list_session;
use sfc::{Head, Reason, read_header};

// The limit on the blocks, and the session in as much of the memory as the header wants.
fn list_accepted(h: Head, file: &[u8], desk: Desk<'_>, page: &mut Page<'_>)
    requires read { read_header file.now ≡ Ok h }
    requires short { length file.now ≤ 65536 }
    requires desk { desk_wrong (on_desk desk) ≡ false }
    requires room { HasRoom text_room page.old }
    ensures { Puts text_room page.old (accepted_text h file.now) page.new }
{
    let blocks = h.n as usize + h.m as usize;
    let bytes = blocks * h.s as usize;
    if BLOCKS_MOST < bytes {
        return page.put_refused(Reason::HouseLimit);
    }
    let rebuilt = h.m as usize * h.s as usize;
    let from = little::read32(file, LENGTH_AT) as usize + AFTER_LENGTH;
    let end = file.len() - TRAILER;
    let wanted = desk.cut(bytes, blocks, rebuilt);
    list_session(h, &file[from..end], from, wanted, page);
}

// A file that is too long is not looked at.
fn list_file(file: &[u8], desk: Desk<'_>, page: &mut Page<'_>)
    requires desk { desk_wrong (on_desk desk) ≡ false }
    requires room { HasRoom text_room page.old }
    ensures { Puts text_room page.old (listing_of file.now) page.new }
{
    if FILE_MOST < file.len() {
        return page.put_refused(Reason::HouseLimit);
    }
    match read_header(file) {
        Ok(head) => list_accepted(head, file, desk, page),
        Err(reason) => page.put_refused(reason),
    }
}

// The text goes to the output's front; whatever it says, all other memory is left as zeros.
pub fn listing(file: &[u8], desk: &mut Desk<'_>, out: &mut [u8]) -> Result<usize, Reason>
    ensures memory { SameDesk desk.old desk.new }
    ensures listed { listed_of result (on_desk desk.new) out.new ≡ listed file.now (on_desk desk.old) out.old }
{
    if desk.are_lengths_wrong() {
        return Err(Reason::Lent);
    }
    if out.len() < TEXT {
        return Err(Reason::OutputShort);
    }
    let mut page = Page::new(out);
    // A desk of its own, handed on by value: the check cuts no piece of a struct that is itself behind a `&mut`.
    let lent = Desk {
        store: &mut *desk.store,
        marks: &mut *desk.marks,
        scratch: &mut *desk.scratch,
        numbers: &mut *desk.numbers,
        content: &mut *desk.content,
        bounds: &mut *desk.bounds,
    };
    list_file(file, lent, &mut page);
    desk.clear();
    Ok(page.length())
}
