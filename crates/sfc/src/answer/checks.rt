// One check of an ordered list: a list of checks reads downwards, a line for each, and `?` after it stops at the first that
// refuses.
ghost use Rattle.std.specs.Prelude.{◌≡◌, cond, Ok, Err};

use crate::answer::reason::Reason;

// This test refuses with `why` if it holds.
pub(crate) fn refuse_if(test: bool, why: Reason) -> Result<(), Reason>
    ensures { result ≡ cond test (Err why) (Ok tt) }
{
    if test { Err(why) } else { Ok(()) }
}
