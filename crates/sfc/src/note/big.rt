// Big-endian fields: read from any bytes, and stored. By hand over the width, so that one law serves 2 and 4 bytes; std's calls
// take a whole array, and a byte past the end has no place in one.
ghost use Rattle.std.specs.Prelude.{◌≡◌, ◌+◌, ◌<◌, ◌≤◌, ◌^◌, length};
ghost use Rattle.little.specs.Parts.{put};
ghost use Rattle.sfc.specs.note.Note.{be, big_bytes};

// What `width` bytes from `at` on say, the highest first; a byte past the end counts as 0.
pub(crate) fn read_big(b: &[u8], at: usize, width: usize) -> u32
    requires { (width ≤ 4) × (at + 4 < 2 ^ 64) }
    ensures { result ≡ be b.now at width }
{
    let mut v: u32 = 0;
    for i in 0..width {
        v = v * 256 + little::byte_at(b, at + i) as u32;
    }
    v
}

// Stores the lowest bytes of v over all of d, the highest first.
fn fill_big(d: &mut [u8], v: u32)
    ensures { d.new ≡ big_bytes (length d.old) v }
{
    let mut rest = v;
    for i in (0..d.len()).rev() {
        d[i] = (rest % 256) as u8;
        rest = rest / 256;
    }
}

// Stores `width` bytes of v from `at` on: the law of `put` that its callers cite says it of a place in the whole output.
pub(crate) fn put_big(out: &mut [u8], at: usize, width: usize, v: u32)
    requires { at + width ≤ length out.old }
    ensures { out.new ≡ put out.old at (big_bytes width v) }
{
    let end = at + width;
    fill_big(&mut out[at..end], v);
}
