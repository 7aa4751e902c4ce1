// Prints what the code answers, for comparison with the second program: every set of indices withheld from small codes, codes
// at the limits, ranges of columns, odd numbers of words, long blocks, and shapes that are refused. Lent memory is dirty, and
// garbage lies where nothing is held.
#![tactic(auto)]

mod fillers;
mod odd;
mod runs;
mod shapes;

use std::io;

fn main(rt: HostRuntime) -> io::Result<()> {
    runs::three_and_two(&rt)?;
    runs::small_codes(&rt)?;
    runs::full_code(&rt)?;
    runs::wide_code(&rt)?;
    runs::long_code(&rt)?;
    odd::blocks(&rt)?;
    runs::column_ranges(&rt)?;
    odd::ranges(&rt)?;
    shapes::recoveries(&rt)?;
    shapes::fours(&rt)?;
    shapes::rebuilds(&rt)
}
