// The listing of an SFC file: what a program prints for any bytes that are offered as one.
#![tactic(auto)]

mod desk;
mod file;
mod lent;
mod lines;
mod page;
mod refusals;
mod room;
mod session;

// What a listing is lent beside its output, and the lines for a file, put at the output's front.
pub use desk::Desk;
pub use file::listing;
// The longest file that is looked at, and how much memory is lent: of each kind just so much, and for the text at least.
pub use room::{BOUNDS, CONTENT, FILE_MOST, MARKS, NUMBERS, SCRATCH, STORE, TEXT};
