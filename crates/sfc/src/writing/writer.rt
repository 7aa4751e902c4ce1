// The writer: a whole file from a content and what the caller says of it.
ghost use Rattle.std.specs.Prelude.{◌≡◌};
ghost use Rattle.sfc.specs.answer.Numbers.{answered};
ghost use Rattle.sfc.specs.writing.Writer.{input_of, region, file_of, input_wrong, write_file};
ghost use Rattle.sfc.specs.inner.Writing.{Ready, given};

use crate::answer::checks::refuse_if;
use crate::answer::reason::Reason;
use crate::format::extension::{are_fields_wrong, do_tags_fall, has_tag_within};
use crate::format::layout::*;
use crate::format::limits::{Shape, are_flags_barred, wanted_blocks};
use crate::format::priority::is_distinct_below;
use crate::format::text::is_name_wrong;
use crate::writing::parts::{
    Plan, put_identity, put_indices, put_preamble, put_shape, put_trailer,
};

// Limits, in the types of what is held against them here.
const MOST_BLOCKS: u64 = MOST_DATA as u64;

const H_BESIDE_LISTS: usize = LEAST_H as usize;

const LONGEST_H: usize = MOST_H as usize;

// The tags that nobody may use.
const FIRST_RESERVED: u16 = 0x0010;

const LAST_RESERVED: u16 = 0x0012;

// Bytes of a file before its header's lists, and beside those lists and the chunks.
const FILE_BEFORE_LISTS: usize = REGION_AT + HEADER_BEFORE_LISTS;

const FILE_BESIDE_LISTS_AND_CHUNKS: usize = FILE_BEFORE_LISTS + TRAILER;

// What the caller says of a file, beside its content and the lists of its header: S and M, and fields that go in as given.
#[derive(Clone, Copy)]
pub struct FileFacts {
    pub s: u32,
    pub m: u32,
    pub uuid: [u8; 16],
    pub time: u64,
    pub format: u16,
    pub flags: u16,
}

// What the caller gives, all of it.
#[derive(Clone, Copy)]
struct Input<'a> {
    facts: FileFacts,
    content: &'a [u8],
    name: &'a [u8],
    priority: &'a [u32],
    fields: &'a [u8],
}

impl Input<'_> {
    // 60, decided from the inputs before a byte is written. The list is compared with itself only where n bounds the work.
    fn is_wrong(&self) -> bool
        ensures { result ≡ input_wrong (given self.now) }
    {
        let size = self.content.len() as u64;
        let s = self.facts.s;
        if s == 0 {
            return true;
        }
        let blocks = wanted_blocks(size, s);
        if MOST_BLOCKS < blocks {
            return true;
        }
        let priority = self.priority;
        if (blocks as usize) < priority.len() {
            return true;
        }
        let n = blocks as u32;
        let m = self.facts.m;
        let shape = Shape { size, n, m, s };
        let flags = self.facts.flags;
        let fields = self.fields;
        let h = H_BESIDE_LISTS + 4 * priority.len() + fields.len();
        is_name_wrong(self.name)
            | (LONGEST_H < h)
            | has_tag_within(fields, FIRST_RESERVED, LAST_RESERVED)
            | do_tags_fall(fields)
            | shape.is_wrong()
            | are_flags_barred(flags)
            | !is_distinct_below(priority, n)
            | are_fields_wrong(n as u64 + m as u64, flags, fields)
    }

    fn put_region(&self, n: u32, r: &mut [u8])
        requires { Ready region (given self.now) n r.old }
        ensures { r.new ≡ region (given self.now) }
    {
        let facts = self.facts;
        let h = r.len() - LENGTH_FIELD;
        little::write32(r, 0, h as u32);
        let digest = blake3::hash(self.content);
        let size = self.content.len() as u64;
        put_identity(
            facts.uuid,
            size,
            facts.format,
            self.name,
            digest,
            &mut r[UUID_AT..N_AT],
        );
        let count = self.priority.len();
        put_shape(
            n,
            facts.m,
            facts.s,
            facts.flags,
            count as u16,
            &mut r[N_AT..HEADER_BEFORE_LISTS],
        );
        let end = HEADER_BEFORE_LISTS + 4 * count;
        put_indices(self.priority, &mut r[HEADER_BEFORE_LISTS..end]);
        r[end..].copy_from_slice(self.fields);
    }

    // The file over all of `out`.
    fn put_file(&self, n: u32, out: &mut [u8])
        requires { Ready file_of (given self.now) n out.old }
        ensures { out.new ≡ file_of (given self.now) }
    {
        let facts = self.facts;
        let start = FILE_BEFORE_LISTS + 4 * self.priority.len() + self.fields.len();
        let end = out.len() - TRAILER;
        put_preamble(&mut out[0..PREAMBLE]);
        self.put_region(n, &mut out[REGION_AT..start]);
        let digest = blake3::hash(&out[REGION_AT..start]);
        let uuid = facts.uuid;
        let plan = Plan {
            uuid,
            n,
            m: facts.m,
            s: facts.s,
        };
        plan.put_chunks(self.content, &mut out[start..end]);
        put_trailer(digest, facts.time, &mut out[end..]);
    }
}

// The file that the inputs make, at the output's front; the answer is how many bytes it has. What lies after it stays, and a
// refusal leaves all as it was. The inputs come one by one, as the C interface lends them.
pub fn write(
    facts: FileFacts,
    content: &[u8],
    name: &[u8],
    priority: &[u32],
    fields: &[u8],
    out: &mut [u8],
) -> Result<usize, Reason>
    ensures { answered result out.new ≡ write_file (input_of facts content.now name.now priority.now fields.now) out.old }
{
    let input = Input {
        facts,
        content,
        name,
        priority,
        fields,
    };
    refuse_if(input.is_wrong(), Reason::WriterInput)?;
    let n = wanted_blocks(content.len() as u64, facts.s) as u32;
    let chunk = CHUNK_OUTER + facts.s as usize;
    let chunks = (n as usize + facts.m as usize) * chunk;
    let length = FILE_BESIDE_LISTS_AND_CHUNKS + 4 * priority.len() + fields.len() + chunks;
    refuse_if(out.len() < length, Reason::WriterOutput)?;
    input.put_file(n, &mut out[..length]);
    Ok(length)
}
