// What is given of a session: its prefix, the whole content (rebuilt in turns, then released), one block.
pub mod block;
pub mod gather;
pub mod prefix;
pub mod rebuild;
pub mod release;
pub mod turn;
