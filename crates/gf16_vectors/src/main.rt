// Prints what the field answers, for comparison with the second program: the worked values, every inverse in digests,
// and ten thousand products.
#![tactic(auto)]

ghost use Rattle.std.specs.Prelude.{◌<◌};
ghost use Rattle.gf16_vectors.specs.declared.TheConstants.{HIGH_PRIME, LOW_PRIME};

use std::{fmt, io};

fn worked(rt: &impl Print) -> io::Result<()> {
    let products = [
        ("C1", 2, 0x8016),
        ("C2", 3, 0x8016),
        ("C3", 4, 0x8016),
        ("C4", 2, 0x8000),
    ];
    for (label, a, b) in products {
        println!(rt; "{label} {:04x}", gf16::mul(a, b))?;
    }
    println!(rt; "C5 {:04x}", gf16::inv(1))
}

const BASE: u64 = 65537;

const LOW_PRIME: u64 = 4294967291;

const HIGH_PRIME: u64 = 4294967279;

// A running digest at base 65537 modulo two primes below 2^32: a wrong, missing or moved value changes it. cauchy_vectors has one
// of its own: the programs share no crate of their own.
#[derive(Clone, Copy)]
struct Digest {
    low: u64,
    high: u64,
    ghost low_reduced: { low < LOW_PRIME },
    ghost high_reduced: { high < HIGH_PRIME },
}

impl Digest {
    fn new() -> Digest {
        Digest { low: 1, high: 1 }
    }

    fn take(self, x: u16) -> Digest {
        Digest {
            low: (self.low * BASE + u64::from(x)) % LOW_PRIME,
            high: (self.high * BASE + u64::from(x)) % HIGH_PRIME,
        }
    }
}

impl fmt::Display for Digest {
    fn fmt<W: fmt::Write>(&self, f: &mut fmt::Formatter<W>) -> fmt::Result {
        write!(f, "{:08x} {:08x}", self.low, self.high)
    }
}

// All elements, 4,096 to a line.
fn all_inverses(rt: &impl Print) -> io::Result<()> {
    for high in 0..16 {
        let first: u16 = high * 4096;
        let digest = (first..=first + 4095)
            .map(gf16::inv)
            .fold(Digest::new(), Digest::take);
        println!(rt; "inverses from {first:04x}: {digest}")?;
    }
    Ok(())
}

// Sixteen products to a line. Their factors leap over the field.
fn products(rt: &impl Print) -> io::Result<()> {
    for i in 0u16..10240 {
        let left = i.wrapping_mul(40503).wrapping_add(1);
        let right = i.wrapping_mul(25717).wrapping_add(3);
        print!(rt; "{:04x}", gf16::mul(left, right))?;
        if i % 16 == 15 {
            println!(rt;)?;
        }
    }
    Ok(())
}

fn main(rt: HostRuntime) -> io::Result<()> {
    worked(&rt)?;
    all_inverses(&rt)?;
    products(&rt)
}
