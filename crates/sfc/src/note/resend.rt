// The resend note: written from the marks of a session, and read from any bytes.
ghost use Rattle.std.specs.Prelude.{◌≡◌, ◌∷◌, ◌++◌, ◌+◌, ◌*◌, ◌<◌, ◌≤◌, ◌^◌, length, drop};
ghost use Rattle.little.specs.Parts.{put};
ghost use Rattle.sfc.specs.answer.Numbers.{answered};
ghost use Rattle.sfc.specs.note.Ranges.{maximal, bounds};
ghost use Rattle.sfc.specs.note.Note.{big_bytes, write_note, uuid_in, pairs_from, malformed, read_note};

use crate::answer::checks::refuse_if;
use crate::answer::reason::Reason;
use crate::format::header::Head;
use crate::note::big::{put_big, read_big};
use crate::note::layout::{
    COUNT_AT, COUNT_BYTES, FOLLOWING, INDEX_BYTES, LASTS_AT, LENGTH_BYTES, PAIR_BYTES, PAIRS_AT,
    UUID_AT, VERSION, VERSION_AT,
};
use crate::note::missing::open_marks;
use crate::note::ranges::{count_ranges, put_range_bytes};

// Whose file a note asks for, and how many ranges.
#[derive(Clone, Copy)]
pub struct NoteRead {
    pub uuid: [u8; 16],
    pub ranges: u32,
}

// What stands before the pairs.
fn put_start(uuid: [u8; 16], count: u32, out: &mut [u8])
    requires { (23 ≤ length out.old) × (count < 2 ^ 16) }
    ensures { out.new ≡ big_bytes 4 (19 + 8 * count) ++ (1 ∷ (uuid ++ (big_bytes 2 count ++ drop 23 out.old))) }
{
    put_big(out, COUNT_AT, COUNT_BYTES, count);
    out[UUID_AT..COUNT_AT].copy_from_slice(&uuid);
    out[VERSION_AT] = VERSION;
    put_big(
        out,
        0,
        LENGTH_BYTES,
        FOLLOWING as u32 + PAIR_BYTES as u32 * count,
    );
}

// The note of a session: its UUID and the ranges of its unknown data indices. The answer is how many bytes it has; a refusal
// leaves the output as it was.
pub fn write_note(h: Head, marks: &[u8], out: &mut [u8]) -> Result<usize, Reason>
    ensures { answered result out.new ≡ write_note h marks.now out.old }
{
    refuse_if(h.is_marks_wrong(marks), Reason::Lent)?;
    let among = open_marks(h.n, marks);
    let count = count_ranges(&marks[..among]);
    let length = PAIRS_AT + PAIR_BYTES * count;
    refuse_if(out.len() < length, Reason::OutputShort)?;
    put_range_bytes(&marks[..among], count, out);
    let uuid = h.uuid;
    put_start(uuid, count as u32, out);
    Ok(length)
}

// Whether the pairs rise with an index between neighbours; in 64 bits `last + 2` cannot wrap.
fn is_maximal(note: &[u8], count: u32) -> bool
    ensures { result ≡ maximal (pairs_from note.now 23 count) }
{
    let mut apart = true;
    let mut least: u64 = 0;
    for k in 0..count {
        let at = PAIRS_AT + PAIR_BYTES * k as usize;
        let first = read_big(note, at, INDEX_BYTES) as u64;
        let last = read_big(note, at + INDEX_BYTES, INDEX_BYTES) as u64;
        apart = apart & ((least <= first) & (first <= last));
        least = last + 2;
    }
    apart
}

// What 70 refuses: a length, a version or pairs that no note has.
fn is_malformed(note: &[u8]) -> bool
    ensures { result ≡ malformed note.now }
{
    let count = read_big(note, COUNT_AT, COUNT_BYTES);
    let length = note.len() != PAIRS_AT + PAIR_BYTES * count as usize;
    let told = read_big(note, 0, LENGTH_BYTES) as usize != FOLLOWING + PAIR_BYTES * count as usize;
    let version = little::byte_at(note, VERSION_AT) != VERSION;
    if length | told | version {
        return true;
    }
    !is_maximal(note, count)
}

// The pairs of a note, two entries of the output each, from the last to the first.
fn put_bounds(note: &[u8], count: u32, out: &mut [u32])
    requires { 2 * count ≤ length out.old }
    ensures { out.new ≡ put out.old 0 (bounds (pairs_from note.now 23 count)) }
{
    for k in (0..count as usize).rev() {
        out[2 * k + 1] = read_big(note, LASTS_AT + PAIR_BYTES * k, INDEX_BYTES);
        out[2 * k] = read_big(note, PAIRS_AT + PAIR_BYTES * k, INDEX_BYTES);
    }
}

fn uuid_of(note: &[u8]) -> [u8; 16]
    requires { 23 ≤ length note.now }
    ensures { result ≡ uuid_in note.now }
{
    let mut uuid = [0u8; 16];
    uuid.copy_from_slice(&note[UUID_AT..COUNT_AT]);
    uuid
}

// Any bytes may come; only those that some note has are taken. The ranges go out as first and last, one pair after the other.
pub fn read_note(note: &[u8], out: &mut [u32]) -> Result<NoteRead, Reason>
    ensures { answered result out.new ≡ read_note note.now out.old }
{
    refuse_if(is_malformed(note), Reason::Note)?;
    let count = read_big(note, COUNT_AT, COUNT_BYTES);
    refuse_if(out.len() < 2 * count as usize, Reason::OutputShort)?;
    put_bounds(note, count, out);
    Ok(NoteRead {
        uuid: uuid_of(note),
        ranges: count,
    })
}
