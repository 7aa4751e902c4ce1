// The running hash's stack: whole trees that wait at their heights for a right neighbour.
ghost use Rattle.std.specs.Prelude.{◌≡◌};
ghost use Rattle.blake3.specs.Stack as spec;
ghost use Rattle.blake3.specs.Tree.{flag_of};

use crate::tree::{Extent, parent};

// The heights of the stack: 2 ^ 30 pieces are as many bytes as may be fed.
pub const HEIGHTS: usize = 30;

// Adds piece t, whose chaining value is cv: two trees of one height make one of the next.
pub fn push(stack: &mut [[u32; 8]; HEIGHTS], t: u64, cv: [u32; 8])
    ensures { stack.new ≡ spec.pushed spec.heights 0 t cv stack.old }
{
    let mut tree = cv;
    let mut before = t;
    // As in `piece`, a call's array gets a name of its own before it is stored; so too in `close`.
    for h in 0..HEIGHTS {
        if before % 2 == 0 {
            stack[h] = tree;
            return;
        }
        let both = parent(stack[h], tree, Extent::Part);
        tree = both;
        before /= 2;
    }
}

// With t trees on its left: what has none there is the whole text.
pub fn extent(t: u64) -> Extent
    ensures { flag_of result ≡ spec.root_flag t }
{
    if t == 0 { Extent::Whole } else { Extent::Part }
}

// cv with the tree on its left, where t says that one waits there.
fn joined(left: [u32; 8], t: u64, cv: [u32; 8]) -> [u32; 8]
    ensures { result ≡ spec.joined_to left t cv }
{
    if t % 2 == 0 {
        cv
    } else {
        parent(left, cv, extent(t / 2))
    }
}

// Joins the trees that wait, from the lowest height up, each on the left of what the text ends with: cv at first.
pub fn close(stack: &[[u32; 8]; HEIGHTS], t: u64, cv: [u32; 8]) -> [u32; 8]
    ensures { result ≡ spec.closed spec.heights 0 t cv stack.now }
{
    let mut tree = cv;
    let mut before = t;
    for left in stack {
        let next = joined(*left, before, tree);
        tree = next;
        before /= 2;
    }
    tree
}
