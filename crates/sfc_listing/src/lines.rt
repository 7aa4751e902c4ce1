// The listing's lines, each put to the end of a page.
ghost use Rattle.std.specs.Prelude.{◌≡◌, ◌%◌, ◌*◌, ◌≤◌, length};
ghost use Rattle.sfc.specs.answer.Numbers.{number_of};
ghost use Rattle.sfc_listing.specs.Text.{line};
ghost use Rattle.sfc_listing.specs.Listing.{refused_text, refusal_line, verdict_line, uuid_line, shape_line, counts_line, head_text};
ghost use Rattle.sfc_listing.specs.Lines.{word_of, range_line, bounds_lines, end_lines, end_room};
ghost use Rattle.sfc_listing.specs.Page.{HasRoom, Puts};

use crate::page::Page;
use sfc::{BytePlace, Head, MarksCounted, Reason, Verdict};

// How the release ends.
#[derive(Clone, Copy)]
pub(crate) enum LastWord {
    Complete,
    HashDiffers,
    Incomplete,
}

impl LastWord {
    fn line(self) -> &'static str
        ensures { result.now ≡ line (word_of self) }
    {
        match self {
            LastWord::Complete => "complete\n",
            LastWord::HashDiffers => "hash differs\n",
            LastWord::Incomplete => "incomplete\n",
        }
    }
}

impl<'a> Page<'a> {
    fn put_uuid(&mut self, uuid: [u8; 16])
        requires { HasRoom 42 self.old }
        ensures { Puts 42 self.old (uuid_line uuid) self.new }
    {
        self.put("sfc uuid=");
        self.put_hex(&uuid);
        self.put("\n");
    }

    fn put_shape(&mut self, h: Head)
        requires { HasRoom 111 self.old }
        ensures { Puts 111 self.old (shape_line h.n h.m h.size h.s) self.new }
    {
        self.put_value("blocks=", h.n as u64);
        self.put_value(" recovery=", h.m as u64);
        self.put_value(" size=", h.size);
        self.put_value(" block=", h.s as u64);
        self.put("\n");
    }

    fn put_counts(&mut self, counted: MarksCounted)
        requires { HasRoom 54 self.old }
        ensures { Puts 54 self.old (counts_line counted.held counted.barred) self.new }
    {
        self.put_value("held=", counted.held as u64);
        self.put_value(" barred=", counted.barred as u64);
        self.put("\n");
    }

    fn put_range(&mut self, first: u32, last: u32)
        requires { HasRoom 50 self.old }
        ensures { Puts 50 self.old (range_line first last) self.new }
    {
        self.put_value("missing ", first as u64);
        self.put_value("-", last as u64);
        self.put("\n");
    }

    fn put_missing(&mut self, bounds: &[u32])
        requires even { length bounds.now % 2 ≡ 0 }
        requires room { HasRoom (25 * length bounds.now) self.old }
        ensures { Puts (25 * length bounds.now) self.old (bounds_lines bounds.now) self.new }
    {
        let (ranges, _) = bounds.as_chunks::<2>();
        for range in ranges {
            self.put_range(range[0], range[1]);
        }
    }

    // The one line of a file that is refused.
    pub(crate) fn put_refused(&mut self, reason: Reason)
        requires { HasRoom 29 self.old }
        ensures { Puts 29 self.old (refused_text (number_of reason)) self.new }
    {
        self.put_value("refused ", u8::from(reason) as u64);
        self.put("\n");
    }

    // A refused chunk's line; `own` is where the chunk begins in the file.
    fn put_refusal(&mut self, reason: Reason, spot: Option<BytePlace>, own: usize)
        requires own { own ≤ 65536 }
        requires room { HasRoom 50 self.old }
        ensures { Puts 50 self.old (refusal_line own reason spot) self.new }
    {
        match spot {
            Some(place) => {
                self.put_value("refused ", u8::from(reason) as u64);
                self.put_value(" ", own as u64 + place.0 as u64);
                self.put("\n");
            }
            None => self.put_refused(reason),
        }
    }

    // What was taken has no line.
    pub(crate) fn put_verdict(&mut self, verdict: Verdict, spot: Option<BytePlace>, own: usize)
        requires own { own ≤ 65536 }
        requires room { HasRoom 50 self.old }
        ensures { Puts 50 self.old (verdict_line own verdict spot) self.new }
    {
        match verdict {
            Verdict::Fresh(_, _) | Verdict::Repeat(_, _) => {}
            Verdict::Refused(reason) => self.put_refusal(reason, spot, own),
        }
    }

    // The lines before the refused ones.
    pub(crate) fn put_head(&mut self, h: Head)
        requires { HasRoom 153 self.old }
        ensures { Puts 153 self.old (head_text h.uuid h.n h.m h.size h.s) self.new }
    {
        self.put_uuid(h.uuid);
        self.put_shape(h);
    }

    // The lines after them; `bounds` has first and last of each missing range, one after the other.
    pub(crate) fn put_end(&mut self, counted: MarksCounted, bounds: &[u32], last: LastWord)
        requires few { length bounds.now ≤ 1024 }
        requires even { length bounds.now % 2 ≡ 0 }
        requires room { HasRoom end_room self.old }
        ensures { Puts end_room self.old (end_lines counted.held counted.barred bounds.now last) self.new }
    {
        self.put_counts(counted);
        self.put_missing(bounds);
        self.put(last.line());
    }
}
