// The parts of a written file, each put over the whole of a lent part of the output.
ghost use Rattle.std.specs.Prelude.{◌≡◌, false, ◌+◌, ◌-◌, ◌*◌, ◌^◌, ◌<◌, ◌≤◌, length, take};
ghost use Rattle.cauchy.specs.Code.{joined};
ghost use Rattle.cauchy.specs.Calls.{up_to_four};
ghost use Rattle.sfc.specs.format.Bytes.{padded};
ghost use Rattle.sfc.specs.session.Lent.{shape_wrong};
ghost use Rattle.sfc.specs.writing.Writer.{erasure_for, identity_bytes, shape_bytes, index_bytes, preamble, trailer_bytes, chunk_header, sealed};
ghost use Rattle.sfc.specs.inner.Writing.{chunk_of, run_chunk, recovery_chunk, code_chunk, Planned, all_of};

use crate::format::chunk::type_for;
use crate::format::layout::*;
use cauchy::Shape;

// The identity is the region from its UUID up to N, with these places in it.
const SIZE_PLACE: usize = SIZE_AT - UUID_AT;

const FORMAT_PLACE: usize = FORMAT_AT - UUID_AT;

const NAME_PLACE: usize = NAME_AT - UUID_AT;

const HASH_PLACE: usize = HASH_AT - UUID_AT;

const IDENTITY: usize = N_AT - UUID_AT;

// The shape is the region from N up to the lists.
const M_PLACE: usize = M_AT - N_AT;

const S_PLACE: usize = S_AT - N_AT;

const IDENTIFIERS_PLACE: usize = ERASURE_AT - N_AT;

const FLAGS_PLACE: usize = FLAGS_AT - N_AT;

const PRIORITIES_PLACE: usize = PRIORITIES_AT - N_AT;

const LONGEST_BLOCK: usize = MOST_BLOCK as usize;

// An identifier of the file, which any byte may stand for, and so no enum.
pub(crate) fn erasure_for(m: u32) -> u8
    ensures { result ≡ erasure_for m }
{
    if m == 0 { 0 } else { 1 }
}

// The bytes of b, and zeros after them.
pub(crate) fn put_padded(b: &[u8], d: &mut [u8])
    requires { length b.now ≤ length d.old }
    ensures { d.new ≡ padded (length d.old) b.now }
{
    let end = b.len();
    d[..end].copy_from_slice(b);
    little::clear(&mut d[end..]);
}

pub(crate) fn put_preamble(d: &mut [u8])
    requires { length d.old ≡ 8 }
    ensures { d.new ≡ preamble }
{
    d[0..MAJOR_AT].copy_from_slice(&MAGIC);
    little::write16(d, MAJOR_AT, 0);
    little::write16(d, MINOR_AT, 1);
}

// The fields of the format in their order; this and `put_shape` have one caller each, which has them one by one.
pub(crate) fn put_identity(
    uuid: [u8; 16],
    size: u64,
    format: u16,
    name: &[u8],
    digest: [u8; 32],
    d: &mut [u8],
)
    requires { (length d.old ≡ 313) × (length name.now ≤ 255) }
    ensures { d.new ≡ identity_bytes uuid size format name.now digest }
{
    d[0..UUID_ROOM].copy_from_slice(&uuid);
    little::write64(d, SIZE_PLACE, size);
    little::write16(d, FORMAT_PLACE, format);
    put_padded(name, &mut d[NAME_PLACE..HASH_PLACE]);
    d[HASH_PLACE..IDENTITY].copy_from_slice(&digest);
}

pub(crate) fn put_shape(n: u32, m: u32, s: u32, flags: u16, p: u16, d: &mut [u8])
    requires { length d.old ≡ 18 }
    ensures { d.new ≡ shape_bytes n m s flags p }
{
    little::write32(d, 0, n);
    little::write32(d, M_PLACE, m);
    little::write32(d, S_PLACE, s);
    d[IDENTIFIERS_PLACE..FLAGS_PLACE].copy_from_slice(&[erasure_for(m), 0]);
    little::write16(d, FLAGS_PLACE, flags);
    little::write16(d, PRIORITIES_PLACE, p);
}

pub(crate) fn put_indices(list: &[u32], d: &mut [u8])
    requires { length d.old ≡ 4 * length list.now }
    ensures { d.new ≡ index_bytes list.now }
{
    for (i, index) in list.iter().enumerate() {
        little::write32(d, 4 * i, *index);
    }
}

pub(crate) fn put_trailer(digest: [u8; 32], time: u64, d: &mut [u8])
    requires { length d.old ≡ 64 }
    ensures { d.new ≡ trailer_bytes digest time }
{
    d[0..TRAILER_HASH_AT].copy_from_slice(&TRAILER_MAGIC);
    d[TRAILER_HASH_AT..TRAILER_TIME_AT].copy_from_slice(&digest);
    little::write64(d, TRAILER_TIME_AT, time);
    little::clear(&mut d[TRAILER_RESERVED_AT..TRAILER]);
}

// What all chunks of a file share: whose they are, and N, M and S.
#[derive(Clone, Copy)]
pub(crate) struct Plan {
    pub(crate) uuid: [u8; 16],
    pub(crate) n: u32,
    pub(crate) m: u32,
    pub(crate) s: u32,
}

// The data blocks, of which the last lies apart from those before it.
#[derive(Clone, Copy)]
struct DataBlocks<'a> {
    front: &'a [u8],
    last: &'a [u8],
}

// The trailer of a chunk whose header and payload stand before it.
fn seal(c: &mut [u8])
    requires { 36 ≤ length c.old }
    ensures { c.new ≡ sealed (take (length c.old - 36) c.old) }
{
    let at = c.len() - CHUNK_TRAILER;
    let digest = blake3::hash(&c[..at]);
    let end = at + HASH_ROOM;
    c[at..end].copy_from_slice(&digest);
    c[end..].copy_from_slice(&END_MARKER);
}

impl Plan {
    fn chunk_length(self) -> usize
        ensures { result ≡ 84 + self.s }
    {
        CHUNK_OUTER + self.s as usize
    }

    fn put_chunk_header(self, i: u32, d: &mut [u8])
        requires { length d.old ≡ 48 }
        ensures { d.new ≡ chunk_header self.uuid self.n self.m self.s i }
    {
        d[0..CHUNK_UUID_AT].copy_from_slice(&CHUNK_MAGIC);
        d[CHUNK_UUID_AT..CHUNK_INDEX_AT].copy_from_slice(&self.uuid);
        little::write32(d, CHUNK_INDEX_AT, i);
        little::write32(d, CHUNK_TYPE_AT, type_for(self.n, i));
        little::write32(d, CHUNK_LENGTH_AT, self.s);
        d[CHUNK_COMPRESSION_AT..CHUNK_RESERVED_AT].copy_from_slice(&[0, erasure_for(self.m)]);
        little::clear(&mut d[CHUNK_RESERVED_AT..CHUNK_HEADER]);
    }

    fn put_chunk(self, i: u32, payload: &[u8], c: &mut [u8])
        requires { length c.old ≡ 84 + length payload.now }
        ensures { c.new ≡ chunk_of self i payload.now }
    {
        self.put_chunk_header(i, &mut c[0..CHUNK_HEADER]);
        let end = c.len() - CHUNK_TRAILER;
        c[CHUNK_HEADER..end].copy_from_slice(payload);
        seal(c);
    }

    // The chunks of `count` blocks that lie one after the other, with the indices from `first` on.
    fn put_run(self, first: u32, count: u32, blocks: &[u8], d: &mut [u8])
        requires { (first + count < 2 ^ 32) × (length blocks.now ≡ count * self.s) × (length d.old ≡ count * (84 + self.s)) }
        ensures { d.new ≡ joined (run_chunk self first blocks.now) 0 count }
    {
        let width = self.s as usize;
        let room = self.chunk_length();
        for i in 0..count {
            let from = i as usize * width;
            let at = i as usize * room;
            self.put_chunk(
                first + i,
                &blocks[from..from + width],
                &mut d[at..at + room],
            );
        }
    }

    // The chunks of the recovery blocks from k on, up to four. The blocks are made in `four`, where they lie one after the other:
    // their places in the chunks lie apart, and two parts of lent memory cannot be lent at once.
    fn put_four(self, k: u32, count: u32, given: &DataBlocks, four: &mut [u8], d: &mut [u8])
        requires { Planned self given.now × (k < self.m) × (count ≡ up_to_four self.m k) × (length four.old ≡ count * self.s) × (length d.old ≡ count * (84 + self.s)) }
        ensures { d.new ≡ joined (recovery_chunk self (all_of given.now)) k count }
    {
        let shape = Shape {
            n: self.n as usize,
            m: self.m as usize,
            s: self.s as usize,
        };
        cauchy::recovery_four(shape, k as usize, given.front, given.last, four).unwrap();
        self.put_run(self.n + k, count, four, d);
    }

    // The recovery chunks, four at a time.
    fn put_recovery_chunks(self, given: &DataBlocks, d: &mut [u8])
        requires { Planned self given.now × (length d.old ≡ self.m * (84 + self.s)) }
        ensures { d.new ≡ joined (recovery_chunk self (all_of given.now)) 0 self.m }
    {
        let width = self.s as usize;
        let room = self.chunk_length();
        let mut four = [0u8; 4 * LONGEST_BLOCK];
        for k in (0..self.m).step_by(4) {
            let count = u32::min(4, self.m - k);
            let blocks = count as usize * width;
            let at = k as usize * room;
            let end = at + count as usize * room;
            self.put_four(k, count, given, &mut four[..blocks], &mut d[at..end]);
        }
    }

    // All chunks, from data blocks of which the last lies apart from those before it.
    fn put_all_chunks(self, given: &DataBlocks, d: &mut [u8])
        requires { Planned self given.now × (length d.old ≡ (self.n + self.m) * (84 + self.s)) }
        ensures { d.new ≡ joined (code_chunk self (all_of given.now)) 0 (self.n + self.m) }
    {
        let room = self.chunk_length();
        let before_last = self.n - 1;
        let at = before_last as usize * room;
        let end = at + room;
        self.put_run(0, before_last, given.front, &mut d[..at]);
        self.put_chunk(before_last, given.last, &mut d[at..end]);
        self.put_recovery_chunks(given, &mut d[end..]);
    }

    // The chunks of a content, whose last block is padded apart. No two parts of lent memory can be lent at once, so the recovery
    // blocks are made from the content and not from the data chunks before them.
    pub(crate) fn put_chunks(self, content: &[u8], d: &mut [u8])
        requires { (shape_wrong (length content.now) self.n self.m self.s ≡ false) × (length d.old ≡ (self.n + self.m) * (84 + self.s)) }
        ensures { d.new ≡ joined (code_chunk self (padded (self.n * self.s) content.now)) 0 (self.n + self.m) }
    {
        let width = self.s as usize;
        let at = (self.n as usize - 1) * width;
        let mut last = [0u8; LONGEST_BLOCK];
        put_padded(&content[at..], &mut last[..width]);
        let given = DataBlocks {
            front: &content[..at],
            last: &last[..width],
        };
        self.put_all_chunks(&given, d);
    }
}
