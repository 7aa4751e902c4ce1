// Odd numbers of words: codes with such blocks, encoded one by one and by fours, and rebuilt; and ranges of so many columns.
ghost use Rattle.std.specs.Prelude.{◌*◌, ◌<◌, ◌≤◌, length};

use crate::fillers::{Digest, damage, fill, marks};
use crate::runs::{Damaged, Encoded, encode, expect_done};
use cauchy::{Columns, Shape};
use std::io;

// What `encode` gives, four recovery blocks at a time.
fn encode_by_fours(rt: &impl Print, shape: Shape, whole: &mut [u8]) -> io::Result<()>
    requires n { 0 < shape.n }
    requires s { (0 < shape.s) × (shape.s ≤ 66) }
    requires data { shape.n * shape.s ≤ length whole.old }
{
    let (data, recovery) = whole.split_at_mut(shape.n * shape.s);
    fill(data);
    let (front, last) = data.split_at(data.len() - shape.s);
    for (k, out) in (0..shape.m)
        .step_by(4)
        .zip(recovery.chunks_mut(4 * shape.s))
    {
        expect_done(rt, cauchy::recovery_four(shape, k, front, last, out))?;
    }
    Ok(())
}

// Eight data blocks and up to seven for recovery, of up to 66 bytes. As many data blocks are gone as can be rebuilt, from block
// 1 on.
fn show_code(rt: &impl Print, m: usize, s: usize) -> io::Result<()>
    requires m { m ≤ 7 }
    requires s { (0 < s) × (s ≤ 66) }
{
    let shape = Shape { n: 8, m, s };
    let mut room = [0u8; 990];
    let whole = &mut room[..(8 + m) * s];
    encode_by_fours(rt, shape, whole)?;
    let by_fours = Digest::new().take_all(whole);
    encode(rt, shape, whole)?;
    let one_by_one = Digest::new().take_all(whole);
    let left = Encoded { shape, whole }.without(|i| (1..=m).contains(&i), Digest::new());
    println!(rt; "8+{m} of {s} bytes: {one_by_one} {by_fours} {left}")
}

fn blocks_of(rt: &impl Print, s: usize) -> io::Result<()>
    requires { (0 < s) × (s ≤ 66) }
{
    for m in 1..=7 {
        show_code(rt, m, s)?;
    }
    Ok(())
}

// Blocks of 1, 3, 5, 31 and 33 words.
const SIZES: [usize; 5] = [2, 6, 10, 62, 66];

pub(crate) fn blocks(rt: &impl Print) -> io::Result<()> {
    for s in SIZES {
        blocks_of(rt, s)?;
    }
    Ok(())
}

fn show_ranges(rt: &impl Print, code: Damaged<'_>, first: usize) -> io::Result<()> {
    for count in [1, 3, 5] {
        let mut scratch = [0u8; 100];
        let (answer, numbers) = code.rebuild(Columns { first, count }, &mut scratch);
        let digest = Digest::new()
            .take(answer)
            .take_all(&scratch)
            .take_all(&numbers);
        println!(rt; "6+5 of 20 bytes, columns {first} and {count}: {digest}")?;
    }
    Ok(())
}

// Ranges of 1, 3 and 5 of the ten columns, from each place on, and past the end. All but one of the data blocks are gone, and
// just enough blocks are held.
pub(crate) fn ranges(rt: &impl Print) -> io::Result<()> {
    let shape = Shape { n: 6, m: 5, s: 20 };
    let mut store = [0u8; 220];
    encode(rt, shape, &mut store)?;
    let marks: [u8; 11] = marks(|i| matches!(i, 0 | 1 | 3 | 4 | 5));
    damage(&mut store, &marks, shape.s);
    for first in 0..11 {
        show_ranges(
            rt,
            Damaged {
                shape,
                store: &store,
                marks: &marks,
            },
            first,
        )?;
    }
    Ok(())
}
