// Drives the public calls of sfc, sfc_walk and sfc_listing by frames from standard input, and prints a line for each answer, for
// comparison with the second program. The frames are listed in frame.rt.
#![tactic(auto)]

mod buffer;
mod chunk;
mod edit;
mod frame;
mod hand_out;
mod header;
mod input;
mod known;
mod listing;
mod note;
mod print;
mod session;
mod sets;
mod sweep;
mod turns;
mod write;

use buffer::{Buffer, ROOM};
use frame::Frame;
use session::Session;
use sfc::Head;
use std::io;

// Prints that many bytes of the input, as far as they go and the room, and a line end.
fn say(rt: &(impl Print + Input), count: usize) -> io::Result<()> {
    let mut text = Buffer::<4096>::new();
    text.read(rt, count)?;
    rt.write_all(text.as_slice())?;
    println!(rt)
}

// What is remembered from frame to frame: the file and what was kept of it, the head that later chunks are held to, and the
// session.
#[derive(Drop)]
struct Probe {
    file: Buffer<ROOM>,
    kept: Buffer<ROOM>,
    head: Head,
    session: Session,
}

impl Probe {
    fn new() -> Probe {
        Probe {
            file: Buffer::new(),
            kept: Buffer::new(),
            head: header::none(),
            session: Session::none(),
        }
    }

    fn serve(&mut self, rt: &(impl Print + Input), frame: Frame) -> io::Result<()> {
        match frame {
            Frame::Say { count } => say(rt, count),
            Frame::Edit(ask) => edit::serve(rt, ask, &mut self.file, &mut self.kept),
            Frame::Header(ask) => {
                header::serve(rt, ask, &mut self.head, self.file.as_mut_slice())
            }
            Frame::Chunk(part, ask) => {
                let chunk = edit::part_of_mut(self.file.as_mut_slice(), part);
                chunk::serve(rt, ask, self.head, chunk)
            }
            Frame::Note(ask) => note::serve(rt, ask, self.file.as_mut_slice()),
            Frame::Listing { room, resized } => {
                listing::serve(rt, room, resized, self.file.as_slice())
            }
            Frame::Session(ask) => { self.session.serve(rt, ask, self.head, self.file.as_slice()) }
        }
    }
}

// A proved loop has to end, and nothing says that the input does: the turns count to a number that no run comes to.
fn interpret(rt: &(impl Print + Input)) -> io::Result<()> {
    let mut probe = Probe::new();
    for _ in 0..u64::MAX {
        let Some(read) = frame::next(rt)? else {
            break;
        };
        if let Ok(frame) = Frame::try_from(read) {
            probe.serve(rt, frame)?;
        }
    }
    Ok(())
}

fn main(rt: HostRuntime) -> io::Result<()> {
    interpret(&rt)
}
