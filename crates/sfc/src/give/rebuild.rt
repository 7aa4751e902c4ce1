// The missing data blocks, rebuilt into scratch for the block request.
ghost use Rattle.std.specs.Prelude.{◌≡◌, true};
ghost use Rattle.sfc.specs.inner.Gather.{Rebuildable, Restored, enough_held, SameLengths};

use crate::format::header::Head;
use cauchy::Shape;

// Whether it could be done: with fewer than n held it cannot. A bool and no Result: the answer is the test itself, of which
// `give_block` makes its own. Lent as the block request is: session/lent.rt says why one by one.
pub(crate) fn rebuild_missing(
    h: &Head,
    store: &[u8],
    marks: &[u8],
    scratch: &mut [u8],
    numbers: &mut [u16],
) -> bool
    requires { Rebuildable h.now.n h.now.m h.now.s store.now marks.now scratch.old numbers.old }
    ensures { (result ≡ enough_held h.now.n marks.now) × (result ≡ true → Restored h.now.n h.now.m h.now.s marks.now store.now scratch.new) × SameLengths scratch.old scratch.new numbers.old numbers.new }
{
    let shape = Shape {
        n: h.n as usize,
        m: h.m as usize,
        s: h.s as usize,
    };
    cauchy::rebuild_all(shape, store, marks, scratch, numbers).is_ok()
}
