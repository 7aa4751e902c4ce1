// The release: the whole content, and only where it has the header's hash.
ghost use Rattle.std.specs.Prelude.{◌≡◌, ◌≤◌, length};
ghost use Rattle.sfc.specs.answer.Numbers.{answered, verdict};
ghost use Rattle.blake3.specs.Tree as tree;
ghost use Rattle.little.specs.Runs.{same};
ghost use Rattle.sfc.specs.inner.Gather.{Whole, content_of, Judgeable, put_if, joined_given};
ghost use Rattle.sfc.specs.give.Turns as turns;

use crate::answer::checks::refuse_if;
use crate::answer::places::{BytePlace, ColumnCount};
use crate::answer::reason::Reason;
use crate::format::header::Head;
use crate::give::gather::Gathered;
use crate::give::turn::columns_left;

// Complete is said here and nowhere else, with the place where the content ends.
#[derive(Clone, Copy, PartialEq, Eq, Debug)]
pub struct Complete {
    pub end: BytePlace,
}

// The answer, and how many columns are finished by now: none once the bytes were judged. A refusal tells that too, as in turn.rt.
#[derive(Clone, Copy)]
pub struct Released {
    pub handed: Result<Complete, Reason>,
    pub finished: ColumnCount,
}

// The bytes that lie in store and scratch, once their hash is known to be the one given. A bool and no Result: the answer is the
// test itself, and `put_if` of the promise and `refuse_if` take it as one.
fn give_checked(content: &Gathered, hash: [u8; 32], out: &mut [u8]) -> bool
    requires { Whole content.now × (content.now.size ≤ length out.old) }
    ensures { (result ≡ same (tree.hash (content_of content.now)) hash) × (out.new ≡ put_if result out.old (content_of content.now)) }
{
    let found = content.content_hash();
    if !little::is_same(&found, &hash) {
        return false;
    }
    content.copy_content(out);
    true
}

// Past 71, 52, 50 and 54; lent as the release is.
fn give_joined(
    h: Head,
    store: &[u8],
    marks: &[u8],
    scratch: &[u8],
    out: &mut [u8],
) -> Result<Complete, Reason>
    requires { Judgeable h store.now marks.now scratch.now out.old }
    ensures { answered result out.new ≡ joined_given h store.now marks.now scratch.now out.old }
{
    let size = h.size as usize;
    let content = Gathered {
        size,
        n: h.n as usize,
        s: h.s as usize,
        marks,
        store,
        scratch,
    };
    let hash = h.hash;
    let given = give_checked(&content, hash, out);
    refuse_if(!given, Reason::ContentHash)?;
    Ok(Complete {
        end: BytePlace(size as u32),
    })
}

// 71, 52, 50 and 54, by which nothing changes; lent as the release is.
fn check_lent(
    h: Head,
    store: &[u8],
    marks: &[u8],
    scratch: &[u8],
    finished: u32,
    out: &[u8],
) -> Result<(), Reason>
    ensures { result ≡ verdict (turns.release_lent h store.now marks.now scratch.now finished out.now) }
{
    let wrong = h.is_columns_wrong(store, marks, scratch, finished);
    refuse_if(wrong, Reason::Lent)?;
    refuse_if((out.len() as u64) < h.size, Reason::OutputShort)?;
    refuse_if(cauchy::held_count(marks) < h.n as usize, Reason::Few)?;
    let left = columns_left(h.n, h.s, marks, finished);
    refuse_if(0 < left, Reason::Unfinished)
}

// Store and marks never change. Scratch is all zeros after complete and after 51; every other refusal leaves what was rebuilt.
// Memory is lent one by one: session/lent.rt says why.
pub fn release(
    h: Head,
    store: &[u8],
    marks: &[u8],
    scratch: &mut [u8],
    finished: ColumnCount,
    out: &mut [u8],
) -> Released
    ensures { turns.releasing_of result.handed result.finished.0 scratch.new out.new ≡ turns.release h store.now marks.now scratch.old finished.0 out.old }
{
    let checked = check_lent(h, store, marks, scratch, finished.0, out);
    match checked {
        Err(reason) => Released {
            handed: Err(reason),
            finished,
        },
        Ok(()) => {
            let handed = give_joined(h, store, marks, scratch, out);
            little::clear(scratch);
            Released {
                handed,
                finished: ColumnCount(0),
            }
        }
    }
}
