// The mixing step on words of 32 bits.
ghost use Rattle.std.specs.Prelude.{◌≡◌};
ghost use Rattle.blake3.specs.Compress as spec;

// Four words of the state with two of the message, one by one as `mixed` in specs/ takes them.
pub fn mix(a: u32, b: u32, c: u32, d: u32, x: u32, y: u32) -> [u32; 4]
    ensures { result ≡ spec.mixed a b c d x y }
{
    let a1 = a.wrapping_add(b).wrapping_add(x);
    let d1 = (d ^ a1).rotate_right(16);
    let c1 = c.wrapping_add(d1);
    let b1 = (b ^ c1).rotate_right(12);
    let a2 = a1.wrapping_add(b1).wrapping_add(y);
    let d2 = (d1 ^ a2).rotate_right(8);
    let c2 = c1.wrapping_add(d2);
    let b2 = (b1 ^ c2).rotate_right(7);
    [a2, b2, c2, d2]
}
