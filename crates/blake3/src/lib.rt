// BLAKE3 without a key, 32 bytes of output (document 01, "BLAKE3, unkeyed"): the hash of a text, and a hash that
// is fed part by part.
#![tactic(auto)]

mod block;
mod compress;
mod in_place;
mod running;
mod stack;
mod tree;
mod words;

ghost use Rattle.std.specs.Prelude.{◌≡◌};
ghost use Rattle.blake3.specs.Tree as spec;

pub use in_place::{feed_in_place, finish_in_place, hash_two_in_place};
pub use running::{Reason, Running};

// The hash of a text of any length.
pub fn hash(input: &[u8]) -> [u8; 32]
    ensures { result ≡ spec.hash input.now }
{
    block::bytes_of(tree::tree(input, 0, tree::Extent::Whole))
}
