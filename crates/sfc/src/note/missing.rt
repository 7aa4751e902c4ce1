// Which data blocks are unknown: the marks that do not say held, listed where too few do.
ghost use Rattle.std.specs.Prelude.{◌≡◌, ◌<◌, ◌≤◌, ◌^◌, length, take};
ghost use Rattle.little.specs.Parts.{put};
ghost use Rattle.sfc.specs.answer.Numbers.{answered};
ghost use Rattle.sfc.specs.note.Missing.{unheld_from, missing, list_missing};

use crate::answer::checks::refuse_if;
use crate::answer::reason::Reason;
use crate::format::header::Head;
use crate::session::marks::HELD;

// How many marks, from the first on, the missing list is made of: those of all data blocks, or none once N are held.
pub(crate) fn open_marks(n: u32, marks: &[u8]) -> usize
    ensures { (result ≤ n) × (missing n marks.now ≡ unheld_from 0 (take result marks.now)) }
{
    let all = n as usize;
    if all <= cauchy::held_count(marks) {
        0
    } else {
        all
    }
}

// The indices of the marks that do not say held, from the last to the first, each before those listed already. What is asked of
// marks and count here and in ranges.rt is asked of lent memory, and so no part of a value.
fn put_unheld(marks: &[u8], count: usize, out: &mut [u32])
    requires { (length marks.now < 2 ^ 32) × (count ≡ length (unheld_from 0 marks.now)) × (count ≤ length out.old) }
    ensures { out.new ≡ put out.old 0 (unheld_from 0 marks.now) }
{
    let mut k = count;
    for (i, mark) in marks.iter().enumerate().rev() {
        if *mark != HELD {
            k -= 1;
            out[k] = i as u32;
        }
    }
}

// The unknown data indices, rising, each once; the answer is how many. A refusal leaves the output as it was.
pub fn list_missing(h: Head, marks: &[u8], out: &mut [u32]) -> Result<usize, Reason>
    ensures { answered result out.new ≡ list_missing h marks.now out.old }
{
    refuse_if(h.is_marks_wrong(marks), Reason::Lent)?;
    let among = open_marks(h.n, marks);
    let count = among - cauchy::held_count(&marks[..among]);
    refuse_if(out.len() < count, Reason::OutputShort)?;
    put_unheld(&marks[..among], count, out);
    Ok(count)
}
