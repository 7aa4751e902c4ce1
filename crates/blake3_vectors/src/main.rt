// Prints the hashes of the bytes i mod 251 at the published lengths, at once (`LENGTH HEX`) and fed part by part
// (`LENGTH CUT HEX`): first by value in parts of CUT bytes, then in place in two parts.
#![tactic(auto)]

ghost use Rattle.std.specs.Prelude.{◌<◌};

use blake3::{Reason, Running};
use std::{fmt, io};

const LENGTHS: [usize; 35] = [
    0, 1, 2, 3, 4, 5, 6, 7, 8, 63, 64, 65, 127, 128, 129, 1023, 1024, 1025, 2048, 2049, 3072, 3073,
    4096, 4097, 5120, 5121, 6144, 6145, 7168, 7169, 8192, 8193, 16384, 31744, 102400,
];

// Lengths, each with a cut.
const CUTS: [(usize, usize); 18] = [
    (0, 1),
    (1, 1),
    (64, 63),
    (65, 64),
    (1023, 1),
    (1024, 1024),
    (1025, 1024),
    (1025, 63),
    (2048, 1023),
    (2049, 1024),
    (3073, 1025),
    (4096, 2048),
    (4097, 100),
    (5121, 4096),
    (8193, 700),
    (16384, 1024),
    (31744, 3000),
    (102400, 65536),
];

// A hash as it is printed. cauchy_vectors has such a type for its bytes: the programs share no crate of their own.
#[derive(Clone, Copy)]
struct Hex([u8; 32]);

impl fmt::Display for Hex {
    fn fmt<W: fmt::Write>(&self, f: &mut fmt::Formatter<W>) -> fmt::Result {
        for x in &self.0 {
            write!(f, "{x:02x}")?;
        }
        Ok(())
    }
}

// The hash of a text, fed in parts of `cut` bytes and one of the rest.
fn by_value(text: &[u8], cut: usize) -> Result<[u8; 32], Reason>
    requires { 0 < cut }
{
    text.chunks(cut)
        .try_fold(Running::new(), Running::feed)?
        .finish()
}

// The hash of a text, through a record that is fed in place: `cut` bytes first, then the rest.
fn in_place(text: &[u8], cut: usize) -> Result<[u8; 32], Reason> {
    let (first, rest) = text.split_at(cut.min(text.len()));
    blake3::hash_two_in_place(first, rest)
}

fn at_once(rt: &impl Print, bytes: &[u8]) -> io::Result<()> {
    for length in LENGTHS {
        if let Some(text) = bytes.get(..length) {
            println!(rt; "{length} {}", Hex(blake3::hash(text)))?;
        }
    }
    Ok(())
}

fn in_parts(rt: &impl Print, bytes: &[u8]) -> io::Result<()> {
    for (length, cut) in CUTS {
        if let Some(text) = bytes.get(..length) {
            // a refusal, which comes only of texts far longer than these, would print zeros
            println!(rt;
                "{length} {cut} {}",
                Hex(by_value(text, cut).unwrap_or([0; 32]))
            )?;
            println!(rt;
                "{length} {cut} {}",
                Hex(in_place(text, cut).unwrap_or([0; 32]))
            )?;
        }
    }
    Ok(())
}

fn main(rt: HostRuntime) -> io::Result<()> {
    // filled where it stands: an array from a function would be laid down twice on the stack
    let mut bytes = [0u8; 102400];
    for (i, byte) in bytes.iter_mut().enumerate() {
        *byte = (i % 251) as u8;
    }
    at_once(&rt, &bytes)?;
    in_parts(&rt, &bytes)
}
