// What the input is read with.
ghost use Rattle.std.specs.Io.{ReadsAtMost};

use std::io;
use std::io::Read;

// Reads until the buffer is full or the input ends, and answers how many bytes it put at the buffer's front. Each turn goes on by
// as many bytes as came, so the loop counts no index; std's `read_exact` says nothing of how many came before the end. sfc_list
// has such a function: the programs share no crate of their own.
pub(crate) fn read_full(rt: &impl Input, buffer: &mut [u8]) -> io::Result<usize>
    ensures { ReadsAtMost result buffer.new }
{
    let mut reader = rt.reader();
    let mut done = 0;
    while done < buffer.len() {
        let count = reader.read(&mut buffer[done..])?;
        if count == 0 {
            return Ok(done);
        }
        done += count;
    }
    Ok(done)
}
