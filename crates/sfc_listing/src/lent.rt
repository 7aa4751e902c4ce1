// A session in lent memory.
ghost use Rattle.std.specs.Prelude.{◌≡◌, false};
ghost use Rattle.sfc.specs.session.Offer.{beside_wrong, logged_of};

use sfc::{ColumnCount, Head, Tallies};

// With all that an offer takes and hands on; beside the chunk nothing is wrong with it.
#[derive(Drop)]
pub(crate) struct LentSession<'a> {
    pub(crate) head: Head,
    pub(crate) tallies: Tallies,
    pub(crate) store: &'a mut [u8],
    pub(crate) marks: &'a mut [u8],
    pub(crate) scratch: &'a mut [u8],
    pub(crate) finished: ColumnCount,
    ghost beside: { beside_wrong head (logged_of store.now marks.now tallies scratch.now finished.0) ≡ false },
}
