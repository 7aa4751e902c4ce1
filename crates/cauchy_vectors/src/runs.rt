// Codes that are encoded, damaged and rebuilt, a line for each or for each family of them.
ghost use Rattle.std.specs.Prelude.{◌+◌, ◌*◌, ◌<◌, ◌≤◌, length};

use crate::fillers::{DIRT, DIRTY_NUMBER, Digest, Hex, damage, fill, marks};
use cauchy::{Columns, Refusal, Shape};
use std::io;

// 0 for done, and document 01's number for a refusal: the number that the second program prints.
pub(crate) fn number_of(answer: Result<(), Refusal>) -> u16 {
    match answer {
        Ok(()) => 0,
        Err(Refusal::BadShape) => 71,
        Err(Refusal::TooFew) => 50,
    }
}

// A call that has to go well: a refusal would spoil the output.
pub(crate) fn expect_done(rt: &impl Print, answer: Result<(), Refusal>) -> io::Result<()> {
    if answer.is_err() {
        println!(rt; "refused")?;
    }
    Ok(())
}

// Fills the data blocks, and after them puts their recovery blocks.
pub(crate) fn encode(rt: &impl Print, shape: Shape, whole: &mut [u8]) -> io::Result<()>
    requires bytes { 0 < shape.s }
    requires data { shape.n * shape.s ≤ length whole.old }
{
    let (data, recovery) = whole.split_at_mut(shape.n * shape.s);
    fill(data);
    for (k, out) in recovery.chunks_mut(shape.s).enumerate() {
        expect_done(rt, cauchy::recovery(shape, k, data, out))?;
    }
    Ok(())
}

// A store that was encoded. The longest here has 4,224 bytes.
#[derive(Clone, Copy)]
pub(crate) struct Encoded<'a> {
    pub(crate) shape: Shape,
    pub(crate) whole: &'a [u8],
    ghost bytes: { 0 < shape.s },
    ghost room: { length whole.now ≤ 4224 },
}

impl Encoded<'_> {
    // Damages a copy by the marks and rebuilds it; the digest takes in the answer and all lent memory.
    fn rebuilt(self, marks: &[u8], scratch: &mut [u8], digest: Digest) -> Digest {
        let mut room = [0u8; 4224];
        let store = &mut room[..self.whole.len()];
        let mut numbers = [DIRTY_NUMBER; 1024];
        store.copy_from_slice(self.whole);
        damage(store, marks, self.shape.s);
        scratch.fill(DIRT);
        let answer = number_of(cauchy::rebuild_all(
            self.shape,
            store,
            marks,
            scratch,
            &mut numbers,
        ));
        digest.take(answer).take_all(scratch).take_all(&numbers)
    }

    // The same without a set of its indices, for a code of up to eight data and seven recovery blocks of up to 66 bytes.
    pub(crate) fn without<F: Fn(usize) -> bool>(self, gone: F, digest: Digest) -> Digest
        requires marks { (i : _) → i < 15 → F.pre gone i }
        requires blocks { self.shape.n + self.shape.m ≤ 15 }
        requires missing { self.shape.m * self.shape.s ≤ 462 }
    {
        let marks: [u8; 15] = marks(gone);
        let mut scratch = [0u8; 462];
        let Shape { n, m, s } = self.shape;
        self.rebuilt(&marks[..n + m], &mut scratch[..m * s], digest)
    }
}

// Three data and two recovery blocks of four bytes, without every set of them.
pub(crate) fn three_and_two(rt: &impl Print) -> io::Result<()> {
    let shape = Shape { n: 3, m: 2, s: 4 };
    let mut whole = [0u8; 20];
    let mut scratch = [0u8; 8];
    encode(rt, shape, &mut whole)?;
    let whole = &whole;
    for mask in 0u32..32 {
        let marks: [u8; 5] = marks(|i| mask >> i & 1 == 1);
        let digest = Encoded { shape, whole }.rebuilt(&marks, &mut scratch, Digest::new());
        println!(rt; "3+2 without {mask:08x}: {} {digest}", Hex(&scratch))?;
    }
    Ok(())
}

// The digest over every set of the indices withheld, the empty one and the full one among them.
fn small_code(rt: &impl Print, n: usize, m: usize) -> io::Result<()>
    requires n { n ≤ 8 }
    requires m { m ≤ 4 }
{
    let shape = Shape { n, m, s: 4 };
    let mut room = [0u8; 48];
    let whole = &mut room[..(n + m) * 4];
    encode(rt, shape, whole)?;
    let code = Encoded { shape, whole };
    let digest = (0u32..1 << (n + m)).fold(Digest::new(), |digest, mask| {
        code.without(|i| mask >> i & 1 == 1, digest)
    });
    println!(rt; "{n}+{m} without every set: {digest}")
}

fn codes_of(rt: &impl Print, n: usize) -> io::Result<()>
    requires { n ≤ 8 }
{
    for m in 0..=4 {
        small_code(rt, n, m)?;
    }
    Ok(())
}

// Each code of one to eight data and up to four recovery blocks.
pub(crate) fn small_codes(rt: &impl Print) -> io::Result<()> {
    for n in 1..=8 {
        codes_of(rt, n)?;
    }
    Ok(())
}

fn show_full<F: Fn(usize) -> bool>(
    rt: &impl Print,
    code: Encoded<'_>,
    label: &str,
    gone: F,
) -> io::Result<()>
    requires { (i : _) → i < 1056 → F.pre gone i }
{
    let marks: [u8; 1056] = marks(gone);
    let mut scratch = [0u8; 128];
    let digest = code.rebuilt(&marks, &mut scratch, Digest::new());
    println!(rt; "1024+32 without {label}: {digest}")
}

// The largest code of document 01, in blocks of four bytes.
pub(crate) fn full_code(rt: &impl Print) -> io::Result<()> {
    let shape = Shape {
        n: 1024,
        m: 32,
        s: 4,
    };
    let mut whole = [0u8; 4224];
    encode(rt, shape, &mut whole)?;
    println!(rt; "1024+32 whole: {}", Digest::new().take_all(&whole))?;
    let code = Encoded {
        shape,
        whole: &whole,
    };
    // each closure has a type of its own, and a table of them would be of boxes
    show_full(rt, code, "the first 32", |i| i < 32)?;
    show_full(rt, code, "the last 32 data", |i| (992..1024).contains(&i))?;
    show_full(
        rt,
        code,
        "24 data and 8 recovery",
        |i| (1000..1032).contains(&i),
    )?;
    show_full(rt, code, "each 33rd", |i| i % 33 == 7)?;
    show_full(rt, code, "the first 33", |i| i < 33)
}

// Three data and two recovery blocks of 64 bytes.
pub(crate) fn wide_code(rt: &impl Print) -> io::Result<()> {
    let shape = Shape { n: 3, m: 2, s: 64 };
    let mut whole = [0u8; 320];
    encode(rt, shape, &mut whole)?;
    let code = Encoded {
        shape,
        whole: &whole,
    };
    let digest = code.without(|i| matches!(i, 1 | 2), Digest::new());
    println!(rt; "3+2 of 64 bytes without 1 and 2: {digest}")
}

// The same of 514 bytes, a longer range than those that are solved in a short room.
pub(crate) fn long_code(rt: &impl Print) -> io::Result<()> {
    let shape = Shape { n: 3, m: 2, s: 514 };
    let mut whole = [0u8; 2570];
    let mut scratch = [0u8; 1028];
    encode(rt, shape, &mut whole)?;
    let code = Encoded {
        shape,
        whole: &whole,
    };
    let marks: [u8; 5] = marks(|i| matches!(i, 1 | 2));
    let digest = code.rebuilt(&marks, &mut scratch, Digest::new());
    println!(rt; "3+2 of 514 bytes without 1 and 2: {digest}")
}

// A damaged store, with what else is lent to rebuild its columns.
#[derive(Clone, Copy)]
pub(crate) struct Damaged<'a> {
    pub(crate) shape: Shape,
    pub(crate) store: &'a [u8],
    pub(crate) marks: &'a [u8],
}

impl Damaged<'_> {
    // One range of columns: what is not asked for stays dirty. Gives the answer's number, and what the numbers hold after it.
    pub(crate) fn rebuild(self, columns: Columns, scratch: &mut [u8]) -> (u16, [u16; 1024]) {
        let mut numbers = [DIRTY_NUMBER; 1024];
        scratch.fill(DIRT);
        let answer = cauchy::rebuild(
            self.shape,
            self.store,
            self.marks,
            scratch,
            &mut numbers,
            columns,
        );
        (number_of(answer), numbers)
    }
}

// `odd::show_ranges` and `odd::ranges` are of the same form. Sizes, closure, counts and what a line shows differ, and one
// function for both would take them all: it would be no plainer.
fn show_ranges(rt: &impl Print, code: Damaged<'_>, first: usize) -> io::Result<()> {
    for count in 0..6 {
        let mut scratch = [0u8; 24];
        let (answer, numbers) = code.rebuild(Columns { first, count }, &mut scratch);
        let digest = Digest::new().take(answer).take_all(&numbers);
        println!(rt;
            "5+3 of 8 bytes, columns {first} and {count}: {digest} {}",
            Hex(&scratch)
        )?;
    }
    Ok(())
}

// Every range of the four columns of a code of eight bytes a block, and ranges that are too long.
pub(crate) fn column_ranges(rt: &impl Print) -> io::Result<()> {
    let shape = Shape { n: 5, m: 3, s: 8 };
    let mut store = [0u8; 64];
    encode(rt, shape, &mut store)?;
    let marks: [u8; 8] = marks(|i| matches!(i, 0 | 3 | 5));
    damage(&mut store, &marks, shape.s);
    for first in 0..6 {
        show_ranges(
            rt,
            Damaged {
                shape,
                store: &store,
                marks: &marks,
            },
            first,
        )?;
    }
    Ok(())
}
