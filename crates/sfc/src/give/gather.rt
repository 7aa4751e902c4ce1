// The data blocks from where each of them lies, the store or scratch: hashed, and copied. Only the first `size` bytes count,
// so the padding of the last block is neither hashed nor given.
ghost use Rattle.std.specs.Prelude.{◌≡◌, ◌+◌, ◌≤◌, length};
ghost use Rattle.little.specs.Parts.{put};
ghost use Rattle.blake3.specs.Tree as tree;
ghost use Rattle.blake3.specs.Running.{with_bytes, most_fed};
ghost use Rattle.sfc.specs.inner.Gather.{Whole, content_of};

use crate::session::marks::HELD;
use blake3::Running;

// The running hash once `part` is fed to it. Feeding is refused only past 2⁴⁰ bytes, and a content is shorter.
fn with_part(state: Running, part: &[u8]) -> Running
    requires { state.fed + length part.now ≤ most_fed }
    ensures { result ≡ with_bytes state part.now }
{
    state.feed(part).unwrap()
}

// Where a content of `size` bytes lies, in n blocks of s: the blocks held in the store, the others one after the other in
// scratch. Hashing and copying walk alike and stay two loops: one hands a record on by value, one writes, and a closure over the
// pieces would carry the invariant of either, which is no plainer.
#[derive(Clone, Copy)]
pub(crate) struct Gathered<'a> {
    pub(crate) size: usize,
    pub(crate) n: usize,
    pub(crate) s: usize,
    pub(crate) marks: &'a [u8],
    pub(crate) store: &'a [u8],
    pub(crate) scratch: &'a [u8],
}

impl Gathered<'_> {
    // The hash of the data blocks.
    pub(crate) fn content_hash(&self) -> [u8; 32]
        requires { Whole self.now }
        ensures { result ≡ tree.hash (content_of self.now) }
    {
        let Gathered {
            size,
            n,
            s,
            marks,
            store,
            scratch,
        } = *self;
        let mut state = Running::new();
        let mut row = 0;
        for j in 0..n {
            let at = j * s;
            let count = little::least(s, size - at);
            if marks[j] == HELD {
                let end = at + count;
                state = with_part(state, &store[at..end]);
            } else {
                let from = row * s;
                let end = from + count;
                state = with_part(state, &scratch[from..end]);
                row += 1;
            }
        }
        state.finish().unwrap()
    }

    // The data blocks, to the output's front.
    pub(crate) fn copy_content(&self, out: &mut [u8])
        requires { Whole self.now × (self.now.size ≤ length out.old) }
        ensures { out.new ≡ put out.old 0 (content_of self.now) }
    {
        let Gathered {
            size,
            n,
            s,
            marks,
            store,
            scratch,
        } = *self;
        let mut row = 0;
        for j in 0..n {
            let at = j * s;
            let count = little::least(s, size - at);
            let to = at + count;
            if marks[j] == HELD {
                out[at..to].copy_from_slice(&store[at..to]);
            } else {
                let from = row * s;
                let end = from + count;
                out[at..to].copy_from_slice(&scratch[from..end]);
                row += 1;
            }
        }
    }
}
