// Where a header's extension field stands, for callers that want its value.
ghost use Rattle.std.specs.Prelude.{◌≡◌, ◌+◌, ◌<◌, ◌^◌, length};
ghost use Rattle.sfc.specs.format.Extension.{fields_of};
ghost use Rattle.sfc.specs.format.Lookup.{found_among, find_field};

use crate::answer::places::BytePlace;
use crate::answer::reason::Reason;
use crate::format::extension::{FIELD_FRONT, Fields};
use crate::format::header::read_header;
use crate::format::layout::{AFTER_LENGTH, HEADER_BEFORE_LISTS, REGION_AT};

// The place in the input where a field's value begins, and its length.
#[derive(Clone, Copy, PartialEq, Eq, Debug)]
pub struct FieldFound {
    pub at: BytePlace,
    pub length: u32,
}

// Among the fields e, of which the first begins at place `start` of the input.
fn find_in(e: &[u8], tag: u16, start: u32) -> Option<FieldFound>
    requires { start + length e.now < 2 ^ 31 }
    ensures { result ≡ found_among tag start (fields_of e.now) }
{
    // The place is the sum of what was passed, so this is no `find`.
    let mut at = start;
    for field in Fields::of(e) {
        let value = at + FIELD_FRONT as u32;
        let length = field.value.len() as u32;
        if field.tag == tag {
            return Some(FieldFound {
                at: BytePlace(value),
                length,
            });
        }
        at = value + length;
    }
    None
}

// The first field with this tag of an accepted header, if it has one; of a refused header its number, and nothing of its fields.
pub fn find_field(input: &[u8], tag: u16) -> Result<Option<FieldFound>, Reason>
    ensures { result ≡ find_field input.now tag }
{
    let head = read_header(input)?;
    let from = REGION_AT + HEADER_BEFORE_LISTS + 4 * head.priorities as usize;
    let end = AFTER_LENGTH + head.header_length as usize;
    Ok(find_in(&input[from..end], tag, from as u32))
}
