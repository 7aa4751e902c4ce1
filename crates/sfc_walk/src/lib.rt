// The walk over the chunks that stand one after the other in a file: each is offered to a session, whatever the offer answers.
#![tactic(auto)]

ghost use Rattle.std.specs.Prelude.{◌≡◌};
ghost use Rattle.sfc.specs.session.Offer.{logged_of};
ghost use Rattle.sfc_walk.specs.Walk.{front_length, some_length, walk_of, walk_over};

use sfc::{ColumnCount, Head, Tallies, measure_chunk, offer};

// The tallies, how many rebuilt columns still count, and the place of the first byte that belongs to no chunk.
#[derive(Clone, Copy)]
pub struct Walked {
    pub tallies: Tallies,
    pub finished: ColumnCount,
    pub end: usize,
}

// How many bytes the chunk at the front takes up, where there is one. A caller that has more to do with each chunk than to offer
// it walks by it with a loop of its own.
pub fn length_at_front(h: Head, b: &[u8]) -> Option<usize>
    ensures { result ≡ some_length (front_length h b.now) }
{
    measure_chunk(h, b).ok()
}

// Each turn offers one chunk. What 71, 30, 31 or 32 refuses is no chunk, and the walk ends there. Each chunk says how long it is,
// so no iterator cuts them. What is lent and handed on stands as in `sfc::offer`, one for one, as its promise and the tallies by
// value in document 01 want it.
pub fn offer_chunks(
    h: Head,
    tallies: Tallies,
    store: &mut [u8],
    marks: &mut [u8],
    scratch: &mut [u8],
    finished: ColumnCount,
    bytes: &[u8],
) -> Walked
    ensures { walk_of store.new marks.new result.tallies scratch.new result.finished.0 result.end ≡ walk_over h (logged_of store.old marks.old tallies scratch.old finished.0) bytes.now }
{
    let mut walked = Walked {
        tallies,
        finished,
        end: 0,
    };
    while let Some(length) = length_at_front(h, &bytes[walked.end..]) {
        let end = walked.end + length;
        let chunk = &bytes[walked.end..end];
        let answer = offer(
            h,
            walked.tallies,
            store,
            marks,
            scratch,
            walked.finished,
            chunk,
        );
        walked = Walked {
            tallies: answer.tallies,
            finished: answer.finished,
            end,
        };
    }
    walked
}
