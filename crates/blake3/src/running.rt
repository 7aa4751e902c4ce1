// The running hash by value: a record that is fed part by part, and that ends with the hash of everything fed.
ghost use Rattle.std.specs.Prelude.{◌≡◌, ◌+◌, ◌≤◌, length};
ghost use Rattle.blake3.specs.Running as spec;
ghost use Rattle.blake3.specs.Stack as stackSpec;

use crate::block::bytes_of;
use crate::stack::{HEIGHTS, close, extent, push};
use crate::tree::{Extent, PIECE_LENGTH, piece};

// The most bytes that may be fed.
const MOST_FED: u64 = 1 << 40;

// The bytes of a whole piece, as the count of bytes fed is divided by them.
const PIECE: u64 = PIECE_LENGTH as u64;

// Why a record or a part is refused; specs/Running.antt has document 01's number.
#[derive(Clone, Copy, PartialEq, Eq, Debug)]
pub enum Reason {
    RunningHash,
}

// The piece that is being filled, how many bytes have been fed, and the trees that wait for their right neighbour. The count
// says how many bytes of the piece and which heights of the stack are in use.
#[derive(Clone, Copy)]
pub struct Running {
    pub piece: [u8; PIECE_LENGTH],
    pub fed: u64,
    pub stack: [[u32; 8]; HEIGHTS],
}

// Refuses where the bytes fed so far and more of them are more than may be fed.
pub(crate) fn check_room(fed: u64, more: usize) -> Result<(), Reason>
    ensures { result ≡ spec.room_for (fed + more) }
{
    if MOST_FED < fed.saturating_add(more as u64) {
        return Err(Reason::RunningHash);
    }
    Ok(())
}

// How many pieces have gone into the stack: all but the last, which stays out even when it is full.
fn pieces_done(fed: u64) -> u64
    ensures { result ≡ stackSpec.pieces_done fed }
{
    fed.saturating_sub(1) / PIECE
}

impl Running {
    // A record that has been fed nothing.
    pub fn new() -> Running
        ensures { result ≡ spec.fresh }
    {
        Running {
            piece: [0; PIECE_LENGTH],
            fed: 0,
            stack: [[0; 8]; HEIGHTS],
        }
    }

    // Whether the piece is full and waits for more.
    fn is_full(&self) -> bool
        ensures { result ≡ stackSpec.is_full self.now.fed }
    {
        self.fed != 0 && self.fed % PIECE == 0
    }

    // Puts a full piece into the stack, so that the next byte finds room.
    fn settle(&mut self)
        ensures rest { (self.new.piece ≡ self.old.piece) × (self.new.fed ≡ self.old.fed) }
        ensures stack { self.new.stack ≡ stackSpec.settled self.old.fed self.old.piece self.old.stack }
    {
        if self.is_full() {
            let t = self.fed / PIECE - 1;
            push(&mut self.stack, t, piece(&self.piece, t, Extent::Part));
        }
    }

    // The record after one more part: each pass of the loop puts into the piece as much of the part as there is room for. The
    // part is cut where the piece is full, so no fixed length cuts it.
    fn with_part(self, part: &[u8]) -> Running
        requires { self.fed + length part.now ≤ spec.most_fed }
        ensures { result ≡ spec.with_bytes self part.now }
    {
        let mut state = self;
        let mut rest = part;
        while !rest.is_empty() {
            state.settle();
            let used = (state.fed % PIECE) as usize;
            let (now, later) = rest.split_at(rest.len().min(PIECE_LENGTH - used));
            state.piece[used..used + now.len()].copy_from_slice(now);
            state.fed += now.len() as u64;
            rest = later;
        }
        state
    }

    // Takes a part of any length in, or refuses it.
    #[tactic(auto, unfolding(crate::specs::Running::fed_with))]
    pub fn feed(self, part: &[u8]) -> Result<Running, Reason>
        ensures { result ≡ spec.fed_with self part.now }
    {
        check_room(self.fed, part.len())?;
        Ok(self.with_part(part))
    }

    // The eight words of the root: the last piece, joined to all that waits on its left.
    fn ending(&self) -> [u32; 8]
        ensures { result ≡ stackSpec.ending self.now.fed self.now.piece self.now.stack }
    {
        let t = pieces_done(self.fed);
        let have = (self.fed - t * PIECE) as usize;
        let cv = piece(&self.piece[..have], t, extent(t));
        close(&self.stack, t, cv)
    }

    // The hash of everything fed, or a refusal.
    #[tactic(auto, unfolding(crate::specs::Running::finished))]
    pub fn finish(self) -> Result<[u8; 32], Reason>
        ensures { result ≡ spec.finished self }
    {
        check_room(self.fed, 0)?;
        Ok(bytes_of(self.ending()))
    }
}
