// The hash under a C name, for programs in other languages and for measuring (bench/blake3.sh).
#![tactic(auto)]

ghost use Rattle.std.specs.Prelude.{◌≡◌};
ghost use Rattle.blake3_native.specs.Into.{hash_into};

// Puts the hash of a text into 32 bytes, and leaves a memory of another length as it is.
#[unsafe(no_mangle)]
pub extern "C" fn embercymbal_blake3(input: &[u8], out: &mut [u8])
    ensures { out.new ≡ hash_into input.now out.old }
{
    let hash = blake3::hash(input);
    if out.len() == 32 {
        out.copy_from_slice(&hash);
    }
}
