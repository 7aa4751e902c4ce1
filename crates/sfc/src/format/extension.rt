// The extension fields of a header region.
ghost use Rattle.std.specs.Prelude.{◌≡◌, ◌+◌, ◌^◌, ◌<◌, ◌&&◌};
ghost use Rattle.little.specs.Runs.{any};
ghost use Rattle.sfc.specs.inner.Fields.{GivesFront};
ghost use Rattle.sfc.specs.format.Extension.{fields_of, rule_broken, is_known, tag_within, has_tag, extension_wrong};
ghost use Rattle.sfc.specs.writing.Writer.{tags_fall};

// Where in a field the length of its value stands, after the tag.
const VALUE_LENGTH_AT: usize = 2;

// How many bytes of a field come before its value.
pub(crate) const FIELD_FRONT: usize = 6;

const MOST_VALUE: u64 = 16384;

// The tag of the list of where each chunk begins, and how long an entry is; flag bit 6 announces it.
const CHUNK_OFFSETS: u16 = 0x0020;

const OFFSET_LENGTH: u64 = 8;

// The tag of the format that a converted content had; flag bit 7 announces it.
const ORIGINAL_FORMAT: u16 = 0x0030;

const FORMAT_LENGTH: u64 = 2;

// The tags of texts about the content.
const FIRST_TEXT: u16 = 0x0100;

const LAST_TEXT: u16 = 0x0104;

const MOST_TEXT: u64 = 4096;

// A field: its tag, and its value.
#[derive(Clone, Copy)]
pub(crate) struct Field<'a> {
    pub(crate) tag: u16,
    pub(crate) value: &'a [u8],
}

// The field at the front, and what lies after it; nothing where no whole field is at the front.
fn next_field(e: &[u8]) -> Option<(Field, &[u8])>
    ensures { GivesFront e.now result }
{
    let (front, behind) = e.split_at_checked(FIELD_FRONT)?;
    let length = little::read32(front, VALUE_LENGTH_AT) as usize;
    let (value, after) = behind.split_at_checked(length)?;
    let tag = little::read16(front, 0);
    Some((Field { tag, value }, after))
}

// The whole fields from the front of some bytes on; `rest` is what lies after those that came.
#[derive(Drop)]
pub(crate) struct Fields<'a> {
    rest: &'a [u8],
}

impl<'a> Fields<'a> {
    pub(crate) fn of(e: &'a [u8]) -> Fields<'a>
        ensures { result.rest.now ≡ e.now }
    {
        Fields { rest: e }
    }
}

impl<'a> Iterator for Fields<'a> {
    ghost use Rattle.std.specs.Iterator.{item_count};
    ghost use Rattle.sfc.specs.inner.Fields.{fields_left, GivesField};

    type Item = Field<'a>;

    ghost next_gives = { GivesField };

    ghost remaining = { item_count fields_left };

    fn next(&mut self) -> Option<Field<'a>> {
        let (field, after) = next_field(self.rest)?;
        self.rest = after;
        Some(field)
    }
}

// Whether a field with this tag and length breaks a rule.
fn breaks_rule(blocks: u64, flags: u16, tag: u16, length: u64) -> bool
    requires { blocks < 2 ^ 34 }
    ensures { result ≡ rule_broken blocks flags tag length }
{
    (MOST_VALUE < length)
        | ((tag == CHUNK_OFFSETS) & !((length == OFFSET_LENGTH * blocks) & (flags / 64 % 2 == 1)))
        | ((tag == ORIGINAL_FORMAT) & !((length == FORMAT_LENGTH) & (flags / 128 % 2 == 1)))
        | ((FIRST_TEXT <= tag) & (tag <= LAST_TEXT) & !((1 <= length) & (length <= MOST_TEXT)))
}

// Whether the draft gives this tag a meaning; fields with any other may come as often as they like.
fn is_known(tag: u16) -> bool
    ensures { result ≡ is_known tag }
{
    (tag == CHUNK_OFFSETS) | (tag == ORIGINAL_FORMAT) | ((FIRST_TEXT <= tag) & (tag <= LAST_TEXT))
}

// Whether a field with a tag from `low` to `high` is among them.
pub(crate) fn has_tag_within(e: &[u8], low: u16, high: u16) -> bool
    ensures { result ≡ any (tag_within low high) (fields_of e.now) }
{
    Fields::of(e).any(|field| (low <= field.tag) & (field.tag <= high))
}

// Whether a known tag comes again among the fields after it. Foreign ones are not looked for, so that seven walks are the most
// that a region can ask for: the second field of a known tag ends the reading.
fn comes_again(tag: u16, after: &[u8]) -> bool
    ensures { result ≡ (is_known tag && has_tag tag (fields_of after.now)) }
{
    if is_known(tag) {
        return has_tag_within(after, tag, tag);
    }
    false
}

// 21
pub(crate) fn are_fields_wrong(blocks: u64, flags: u16, e: &[u8]) -> bool
    requires { blocks < 2 ^ 34 }
    ensures { result ≡ extension_wrong blocks flags e.now }
{
    let mut fields = Fields::of(e);
    // A `for` would take `fields`, whose rest is asked for in each turn and at the end.
    while let Some(field) = fields.next() {
        let length = field.value.len() as u64;
        if breaks_rule(blocks, flags, field.tag, length) | comes_again(field.tag, fields.rest) {
            return true;
        }
    }
    !fields.rest.is_empty()
}

// Whether the tags fall somewhere, which the writer does not write; equal neighbours are no fall.
pub(crate) fn do_tags_fall(e: &[u8]) -> bool
    ensures { result ≡ tags_fall e.now }
{
    let mut least = 0;
    for field in Fields::of(e) {
        if field.tag < least {
            return true;
        }
        least = field.tag;
    }
    false
}
