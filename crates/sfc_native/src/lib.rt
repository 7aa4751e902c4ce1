// Turn, release and writer under C names, for programs in other languages and for measuring: an answer goes out as a number,
// since C has no `Result`, and what is lent comes in piece by piece, since the C interface has no struct for it.
#![tactic(auto)]

ghost use Rattle.std.specs.Prelude.{◌≡◌};
ghost use Rattle.sfc.specs.answer.Numbers.{answered};
ghost use Rattle.sfc.specs.writing.Writer.{write_file};
ghost use Rattle.sfc_native.specs.Answers.{answer_number, outcome, turn_of, release_of, length_for, measured, input_from};

use sfc::{ColumnCount, FileFacts, Reason, read_header, rebuild_turn, release, write};

// What was done goes out as 0, a refusal as its number.
fn answer_number<T: Copy>(answer: Result<T, Reason>) -> u8
    ensures { result ≡ answer_number answer }
{
    match answer {
        Ok(_) => 0,
        Err(refusal) => u8::from(refusal),
    }
}

// By the header of the file that is lent first; where that is refused, the answer is its number, and nothing changes. How many
// columns a turn did is what `finished` grew by.
#[unsafe(no_mangle)]
pub extern "C" fn sfc_turn(
    file: &[u8],
    store: &[u8],
    marks: &[u8],
    scratch: &mut [u8],
    numbers: &mut [u16],
    finished: &mut u32,
    budget: u32,
) -> u8
    ensures { outcome result finished.new scratch.new numbers.new ≡ turn_of file.now store.now marks.now scratch.old numbers.old finished.old budget }
{
    let read = read_header(file);
    match read {
        Err(reason) => u8::from(reason),
        Ok(head) => {
            let done = ColumnCount(*finished);
            let answer = rebuild_turn(head, store, marks, scratch, numbers, done, budget);
            let turned = answer.turned;
            *finished = answer.finished.0;
            answer_number(turned)
        }
    }
}

// By the header of the file, as a turn is. `finished` is 0 once the content was judged.
#[unsafe(no_mangle)]
pub extern "C" fn sfc_release(
    file: &[u8],
    store: &[u8],
    marks: &[u8],
    scratch: &mut [u8],
    finished: &mut u32,
    out: &mut [u8],
) -> u8
    ensures { outcome result finished.new scratch.new out.new ≡ release_of file.now store.now marks.now scratch.old finished.old out.old }
{
    let read = read_header(file);
    match read {
        Err(why) => u8::from(why),
        Ok(head) => {
            let done = ColumnCount(*finished);
            let released = release(head, store, marks, scratch, done, out);
            let handed = released.handed;
            *finished = released.finished.0;
            answer_number(handed)
        }
    }
}

fn length_or_number(written: Result<usize, Reason>) -> u64
    ensures { result ≡ length_for written }
{
    match written {
        Ok(length) => length as u64,
        Err(reason) => u8::from(reason) as u64,
    }
}

// The file goes to the output's front. An answer of 60 or 61 is a refusal, and any other is the file's length.
#[unsafe(no_mangle)]
pub extern "C" fn sfc_write(
    s: u32,
    m: u32,
    uuid: &[u8; 16],
    time: u64,
    format: u16,
    flags: u16,
    content: &[u8],
    name: &[u8],
    priority: &[u32],
    fields: &[u8],
    out: &mut [u8],
) -> u64
    ensures { answered result out.new ≡ measured (write_file (input_from s m uuid.now time format flags content.now name.now priority.now fields.now) out.old) }
{
    let facts = FileFacts {
        s,
        m,
        uuid: *uuid,
        time,
        format,
        flags,
    };
    length_or_number(write(facts, content, name, priority, fields, out))
}
