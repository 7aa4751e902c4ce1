// The running hash with a record that is lent and changed in place: a feed and a finish over the methods by value, and the hash
// of two parts through both.
ghost use Rattle.std.specs.Prelude.{◌≡◌};
ghost use Rattle.blake3.specs.Running as spec;

use crate::running::{Reason, Running, check_room};

// Feeds the record that is lent; a refusal leaves it as it stood.
pub fn feed_in_place(state: &mut Running, part: &[u8]) -> Result<(), Reason>
    ensures answer { result ≡ spec.answer_of (spec.fed_with state.old part.now) }
    ensures state { state.new ≡ spec.after_feed state.old part.now }
{
    *state = state.feed(part)?;
    Ok(())
}

// The hash of everything that the lent record was fed, or a refusal; the record stays as it is.
pub fn finish_in_place(state: &Running) -> Result<[u8; 32], Reason>
    ensures { result ≡ spec.finished state.now }
{
    state.finish()
}

// The hash of two parts, one after the other, through one record and the two calls above: a refusal, where they are too long
// together. The lengths are judged first, so that no part is fed in vain.
pub fn hash_two_in_place(first: &[u8], second: &[u8]) -> Result<[u8; 32], Reason>
    ensures { result ≡ spec.hashed_two first.now second.now }
{
    check_room(first.len() as u64, second.len())?;
    let mut state = Running::new();
    feed_in_place(&mut state, first)?;
    feed_in_place(&mut state, second)?;
    finish_in_place(&state)
}
