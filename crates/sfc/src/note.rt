// What is missing: as a list, as ranges, and as the note that asks for it.
pub mod big;
pub mod layout;
pub mod missing;
pub mod ranges;
pub mod resend;
