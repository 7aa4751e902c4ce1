// Bytes at a place of a slice: whether they stand there, and names, which end before their first zero.
ghost use Rattle.std.specs.Prelude.{◌≡◌, ◌+◌, ◌<◌, ◌^◌, length};
ghost use Rattle.sfc.specs.format.Bytes.{stands_at, before_zero};
ghost use Rattle.sfc.specs.writing.Writer.{name_wrong};

use crate::format::layout::NAME_ROOM;

// Whether `wanted` stands in s from `at` on; a byte past the end counts as 0.
pub(crate) fn stands_at(s: &[u8], at: usize, wanted: &[u8]) -> bool
    requires { at + length wanted.now < 2 ^ 64 }
    ensures { result ≡ stands_at s.now at wanted.now }
{
    (at..at + wanted.len())
        .zip(wanted)
        .all(|(place, byte)| little::byte_at(s, place) == *byte)
}

// How many bytes stand before the first zero.
pub(crate) fn name_length(field: &[u8]) -> usize
    ensures { result ≡ length (before_zero field.now) }
{
    field.iter().take_while(|byte| **byte != 0).count()
}

// Whether a name would not be read back as it is.
pub(crate) fn is_name_wrong(name: &[u8]) -> bool
    ensures { result ≡ name_wrong name.now }
{
    (NAME_ROOM < name.len()) | (name_length(name) < name.len())
}
