// The SFC container: every public call and type, by name. Each call takes any bytes, and a refusal gives document 01's number.
#![tactic(auto)]

mod answer;
mod format;
mod give;
mod note;
mod session;
mod writing;

// A refusal's reason, and its number.
pub use answer::reason::Reason;
// Which block, which byte, and how many columns.
pub use answer::places::{BlockNumber, BytePlace, ColumnCount};
// A header's fields, from preamble, region and trailer.
pub use format::header::{Head, read_header};
// Where the value of one of its extension fields stands.
pub use format::lookup::{FieldFound, find_field};
// Whether bytes are a whole chunk of a file, and of which index, or where they broke.
pub use format::chunk::{BrokenChunk, WholeChunk, check_chunk};
// How long the chunk at the front of some bytes is.
pub use format::chunk::measure_chunk;
// A chunk offered to a session: fresh, a repeat or refused, and counted.
pub use session::offer::{OfferAnswer, Verdict, offer};
pub use session::tallies::Tallies;
// How many indices of a session are held, and how many barred.
pub use session::marks::{MarksCounted, count_marks};
// The bytes before the first gap, unverified.
pub use give::prefix::{UnverifiedPrefix, prefix};
// One data block, held or rebuilt, unverified.
pub use give::block::{UnverifiedBlock, block};
// The missing data blocks, rebuilt some word columns at a time.
pub use give::turn::{TurnAnswer, rebuild_turn};
// The whole content after that, where it has the header's hash.
pub use give::release::{Complete, Released, release};
// The unknown data blocks, index by index.
pub use note::missing::list_missing;
// The same as first and last of each range.
pub use note::ranges::list_ranges;
// The note that asks for them.
pub use note::resend::write_note;
// What a note asks for.
pub use note::resend::{NoteRead, read_note};
// A whole file, from a content and what the caller says of it.
pub use writing::writer::{FileFacts, write};
