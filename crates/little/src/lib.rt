// Little-endian fields of a slice at 16, 32 and 64 bits, total readers and writers over one definition of the width; and runs of
// elements, which every floor above needs.
#![tactic(auto)]

mod runs;

ghost use Rattle.std.specs.Prelude.{◌≡◌, ◌+◌, ◌-◌, ◌^◌, ◌<◌, ◌≤◌, length, get_or};
ghost use Rattle.little.specs.Fields.{le, bytes_of, put_le, fits};

pub use runs::{Zero, are_all, clear, fill, is_same, least, within};

// The byte at a place, and 0 past the end.
pub fn byte_at(s: &[u8], at: usize) -> u8
    ensures { result ≡ get_or s.now at 0 }
{
    s.get(at).copied().unwrap_or(0)
}

// How many of `width` bytes from `at` on lie in a slice of `len` bytes.
fn inside(len: usize, at: usize, width: usize) -> usize
    ensures { (result ≤ width) × (0 < result → at + result ≤ len) × (result < width → len ≤ at + result) }
{
    len.saturating_sub(at).min(width)
}

// The number of `width` bytes from `at` on; a byte past the end counts as 0. By hand, and so is `store`: std's `from_le_bytes`
// and `to_le_bytes` are of whole arrays of one type's width, where here one body serves each width and a field that is cut off.
fn read(s: &[u8], at: usize, width: usize) -> u64
    requires { width ≤ 8 }
    ensures { (result ≡ le s.now at width) × (result < 256 ^ width) }
{
    let mut v = 0;
    for i in (0..inside(s.len(), at, width)).rev() {
        v = v * 256 + s[at + i] as u64;
    }
    v
}

// Three widths have three names and not a type parameter: a trait of numbers would have an impl for each, with its width, two
// conversions and their laws, where each reader and writer here is one line over the width.
pub fn read16(s: &[u8], at: usize) -> u16
    ensures { result ≡ le s.now at 2 }
{
    read(s, at, 2) as u16
}

pub fn read32(s: &[u8], at: usize) -> u32
    ensures { result ≡ le s.now at 4 }
{
    read(s, at, 4) as u32
}

pub fn read64(s: &[u8], at: usize) -> u64
    ensures { result ≡ le s.now at 8 }
{
    read(s, at, 8)
}

// Stores the lowest bytes of v over all of d.
fn store(d: &mut [u8], v: u64)
    ensures { d.new ≡ bytes_of (length d.old) v }
{
    let mut rest = v;
    for x in d.iter_mut() {
        *x = (rest % 256) as u8;
        rest /= 256;
    }
}

// Stores the `width` bytes of v from `at` on, and tells whether they lie inside; else d stays as it was. The answer is a bool,
// here and in the three below, because what they promise, `result ≡ fits ..`, is an equation of a bool.
fn write(d: &mut [u8], at: usize, width: usize, v: u64) -> bool
    ensures { (result ≡ fits d.old at width) × (d.new ≡ put_le d.old at width v) }
{
    if d.len() < width {
        return false;
    }
    if d.len() - width < at {
        return false;
    }
    let end = at + width;
    store(&mut d[at..end], v);
    true
}

pub fn write16(d: &mut [u8], at: usize, v: u16) -> bool
    ensures { (result ≡ fits d.old at 2) × (d.new ≡ put_le d.old at 2 v) }
{
    write(d, at, 2, v as u64)
}

pub fn write32(d: &mut [u8], at: usize, v: u32) -> bool
    ensures { (result ≡ fits d.old at 4) × (d.new ≡ put_le d.old at 4 v) }
{
    write(d, at, 4, v as u64)
}

pub fn write64(d: &mut [u8], at: usize, v: u64) -> bool
    ensures { (result ≡ fits d.old at 8) × (d.new ≡ put_le d.old at 8 v) }
{
    write(d, at, 8, v)
}
