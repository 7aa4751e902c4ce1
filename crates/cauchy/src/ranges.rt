// Where the words that are asked for lie in a block of a store.
ghost use Rattle.std.specs.Prelude.{◌≡◌, ◌+◌, ◌*◌, ◌/◌, ◌%◌, ◌^◌, ◌<◌, ◌≤◌};
ghost use Rattle.cauchy.specs.Code.{most_data, most_recovery, least_block, most_block};

// `count` words of each block of s bytes, from word `first` on.
#[derive(Clone, Copy)]
pub struct Range {
    pub s: usize,
    pub first: usize,
    pub count: usize,
    ghost s_least: { least_block ≤ s },
    ghost s_most: { s ≤ most_block },
    ghost even: { s % 2 ≡ 0 },
    ghost words: { first + count ≤ s / 2 },
}

impl Range {
    // How many bytes they take in a block.
    pub fn width(self) -> usize
        ensures { result ≡ 2 * self.count }
    {
        2 * self.count
    }

    // The place of the first of them in block i. No store has more than 1,056 blocks.
    pub fn place(self, i: usize) -> usize
        requires { i < most_data + most_recovery }
        ensures { (result ≡ i * self.s + 2 * self.first) × (result < 2 ^ 32) }
    {
        i * self.s + 2 * self.first
    }
}
