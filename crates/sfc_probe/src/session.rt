// The session that frames drive, and what they lend, offer and ask it.
use crate::buffer::{Buffer, MARKS_ROOM, ROOM, after, front};
use crate::edit::{part_of, set_byte};
use crate::frame::{OnSession, Tally};
use crate::hand_out::{Held, Lent};
use crate::print::{Hex, Rebuilt};
use crate::sweep::Spot;
use crate::{hand_out, known, turns};
use sfc::{ColumnCount, Head, Tallies, Verdict, offer};
use sfc_walk::offer_chunks;
use std::{fmt, io};

// Store, marks and tallies, the scratch of the rebuild and the columns finished in it, and what is lent for one answer.
#[derive(Drop)]
pub(crate) struct Session {
    pub(crate) store: Buffer<ROOM>,
    pub(crate) marks: Buffer<MARKS_ROOM>,
    pub(crate) scratch: Buffer<ROOM>,
    pub(crate) tallies: Tallies,
    pub(crate) finished: ColumnCount,
    pub(crate) lent: Lent,
}

// M blocks.
fn wanted(m: u32, s: u32) -> usize {
    m as usize * s as usize
}

// A verdict as it is printed.
#[derive(Clone, Copy)]
struct Judged(Verdict);

impl fmt::Display for Judged {
    fn fmt<W: fmt::Write>(&self, f: &mut fmt::Formatter<W>) -> fmt::Result {
        match self.0 {
            Verdict::Fresh(index, place) => write!(f, "fresh {} {}", index.0, place.0),
            Verdict::Repeat(index, place) => write!(f, "repeat {} {}", index.0, place.0),
            Verdict::Refused(reason) => write!(f, "{}", u8::from(reason)),
        }
    }
}

fn print_tallies(rt: &impl Print, tallies: &Tallies) -> io::Result<()> {
    print!(rt; "tallies {} {}", tallies.fresh, tallies.repeat)?;
    for count in tallies.refused {
        print!(rt; " {count}")?;
    }
    println!(rt)
}

impl Session {
    // Before any session.
    pub(crate) fn none() -> Session {
        Session {
            store: Buffer::new(),
            marks: Buffer::new(),
            scratch: Buffer::new(),
            tallies: Tallies::new(),
            finished: ColumnCount(0),
            lent: Lent {
                bytes: 0,
                numbers: 0,
                budget: None,
            },
        }
    }

    fn held(&self, head: Head) -> Held<'_> {
        Held {
            head,
            store: self.store.as_slice(),
            marks: self.marks.as_slice(),
        }
    }

    pub(crate) fn rebuilt(&self) -> Rebuilt<'_> {
        Rebuilt {
            scratch: self.scratch.as_slice(),
            finished: self.finished,
        }
    }

    // What a session with this head begins with: as many zeros as it wants.
    fn clear_rebuild(&mut self, head: Head) {
        self.scratch.fill(wanted(head.m, head.s), 0);
        self.finished = ColumnCount(0);
    }

    fn begin(&mut self, head: Head, store: usize, marks: usize, first_mark: u8) {
        self.store.fill(store, 0);
        self.marks.fill(marks, 0);
        set_byte(self.marks.as_mut_slice(), 0, first_mark);
        self.tallies = Tallies::new();
        self.clear_rebuild(head);
    }

    fn lend(&mut self, file: &[u8], store: usize, marks: usize) {
        self.marks.load(front(file, marks));
        self.store.load(front(after(file, marks), store));
        self.tallies = Tallies::new();
    }

    fn set_tally(&mut self, tally: Tally, count: u32) {
        match tally {
            Tally::Fresh => self.tallies.fresh = count,
            Tally::Repeat => self.tallies.repeat = count,
            Tally::Refused(at) => {
                if let Some(refused) = self.tallies.refused.get_mut(at) {
                    *refused = count;
                }
            }
        }
    }

    // Offers, and prints the verdict and the spot.
    fn offer(&mut self, rt: &impl Print, head: Head, chunk: &[u8]) -> io::Result<()> {
        let answer = offer(
            head,
            self.tallies,
            self.store.as_mut_slice(),
            self.marks.as_mut_slice(),
            self.scratch.as_mut_slice(),
            self.finished,
            chunk,
        );
        self.tallies = answer.tallies;
        self.finished = answer.finished;
        println!(rt; "{}{}", Judged(answer.verdict), Spot::from(answer.spot))
    }

    // Offers each chunk, and prints where they end and what they left.
    fn walk(&mut self, rt: &impl Print, head: Head, bytes: &[u8]) -> io::Result<()> {
        let walked = offer_chunks(
            head,
            self.tallies,
            self.store.as_mut_slice(),
            self.marks.as_mut_slice(),
            self.scratch.as_mut_slice(),
            self.finished,
            bytes,
        );
        self.tallies = walked.tallies;
        self.finished = walked.finished;
        println!(rt; "walked {}", walked.end)?;
        self.show(rt)
    }

    // Prints all that a session has.
    fn show(&self, rt: &impl Print) -> io::Result<()> {
        println!(rt; "marks {}", Hex(self.marks.as_slice()))?;
        println!(rt; "store {}", Hex(&blake3::hash(self.store.as_slice())))?;
        print_tallies(rt, &self.tallies)?;
        println!(rt; "rebuild{}", self.rebuilt())
    }

    pub(crate) fn serve(
        &mut self,
        rt: &impl Print,
        ask: OnSession,
        head: Head,
        file: &[u8],
    ) -> io::Result<()> {
        match ask {
            OnSession::Begin {
                store,
                marks,
                first_mark,
            } => self.begin(head, store, marks, first_mark),
            OnSession::Lend {
                store,
                marks,
                is_blank,
            } => {
                self.lend(file, store, marks);
                if is_blank {
                    self.clear_rebuild(head);
                }
            }
            OnSession::SetTally(tally, count) => self.set_tally(tally, count),
            OnSession::Scratch(lent) => self.lent = lent,
            OnSession::Offer(part) => self.offer(rt, head, part_of(file, part))?,
            OnSession::OfferChunks(part) => self.walk(rt, head, part_of(file, part))?,
            OnSession::Show => self.show(rt)?,
            OnSession::Known(ask) => known::serve(rt, ask, self.held(head))?,
            OnSession::Give(wish) => hand_out::serve(rt, wish, self.held(head), self.lent)?,
            OnSession::Rebuild(ask) => turns::serve(rt, ask, self, head, file)?,
        }
        Ok(())
    }
}
