// Shapes and lent lengths that are refused, beside some that are not.
ghost use Rattle.std.specs.Prelude.{◌≤◌};

use crate::fillers::{DIRT, DIRTY_NUMBER, Digest, fill};
use crate::runs::number_of;
use cauchy::Shape;
use std::io;

// n, m, s, and which recovery block is asked for.
const RECOVERIES: [(usize, usize, usize, usize); 11] = [
    (3, 2, 4, 1),
    (3, 2, 4, 2),
    (0, 2, 4, 1),
    (1025, 2, 4, 1),
    (3, 33, 4, 1),
    (3, 32, 4, 31),
    (3, 2, 0, 1),
    (4, 2, 3, 1),
    (2, 2, 6, 1),
    (3, 2, 4098, 1),
    (2, 2, 4, 1),
];

// Twelve bytes of data and a block of four are lent.
pub(crate) fn recoveries(rt: &impl Print) -> io::Result<()> {
    let mut data = [0u8; 12];
    fill(&mut data);
    for (n, m, s, k) in RECOVERIES {
        let mut out = [DIRT; 4];
        let answer = number_of(cauchy::recovery(Shape { n, m, s }, k, &data, &mut out));
        println!(rt;
            "recovery {n} {m} {s} {k}: {answer} {}",
            Digest::new().take_all(&out)
        )?;
    }
    Ok(())
}

// n, m, s, from which recovery block on, and the lengths of `front`, of `last` and of `out`: up to 8, 4 and 16 bytes are lent.
const FOURS: [(usize, usize, usize, usize, usize, usize, usize); 17] = [
    (3, 5, 4, 0, 8, 4, 16),
    (3, 7, 4, 4, 8, 4, 12),
    (3, 32, 4, 31, 8, 4, 4),
    (1, 4, 4, 0, 0, 4, 16),
    (3, 4, 4, 4, 8, 4, 0),
    (3, 4, 4, 5, 8, 4, 16),
    (3, 5, 4, 0, 4, 4, 16),
    (3, 5, 4, 0, 8, 2, 16),
    (3, 7, 4, 4, 8, 4, 16),
    (3, 8, 4, 4, 8, 4, 12),
    (3, 0, 4, 0, 8, 4, 0),
    (3, 5, 3, 0, 6, 3, 12),
    (3, 5, 0, 0, 0, 0, 0),
    (0, 5, 4, 0, 0, 4, 16),
    (3, 5, 4098, 0, 8, 4, 16),
    (1025, 5, 4, 0, 8, 4, 16),
    (3, 33, 4, 0, 8, 4, 16),
];

fn show_four(
    rt: &impl Print,
    shape: Shape,
    k: usize,
    front: usize,
    last: usize,
    room: usize,
) -> io::Result<()>
    requires { (front ≤ 8) × (last ≤ 4) × (room ≤ 16) }
{
    let mut data = [0u8; 12];
    let mut out = [DIRT; 16];
    fill(&mut data);
    let (head, tail) = data.split_at(front);
    let out = &mut out[..room];
    let answer = number_of(cauchy::recovery_four(shape, k, head, &tail[..last], out));
    let Shape { n, m, s } = shape;
    print!(rt; "recovery_four {n} {m} {s} {k} front {front} last {last} out {room}: ")?;
    println!(rt; "{answer} {}", Digest::new().take_all(out))
}

pub(crate) fn fours(rt: &impl Print) -> io::Result<()> {
    for (n, m, s, k, front, last, room) in FOURS {
        show_four(rt, Shape { n, m, s }, k, front, last, room)?;
    }
    Ok(())
}

// n, m and s.
const REBUILDS: [(usize, usize, usize); 8] = [
    (3, 2, 4),
    (2, 3, 4),
    (0, 5, 4),
    (5, 0, 4),
    (3, 2, 3),
    (3, 33, 4),
    (1025, 2, 4),
    (3, 2, 4098),
];

// Five held marks, a store of twenty bytes and scratch of eight are lent.
pub(crate) fn rebuilds(rt: &impl Print) -> io::Result<()> {
    let marks = [1u8; 5];
    let mut store = [0u8; 20];
    fill(&mut store);
    for (n, m, s) in REBUILDS {
        let mut scratch = [DIRT; 8];
        let mut numbers = [0u16; 1024];
        let answer = number_of(cauchy::rebuild_all(
            Shape { n, m, s },
            &store,
            &marks,
            &mut scratch,
            &mut numbers,
        ));
        println!(rt;
            "rebuild {n} {m} {s}: {answer} {}",
            Digest::new().take_all(&scratch)
        )?;
    }
    Ok(())
}
