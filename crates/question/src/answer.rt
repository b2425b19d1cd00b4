// One call for all questions.
ghost use Rattle.std.specs.Prelude.{◌≡◌, ◌*◌};
ghost use Rattle.columns.specs.Columns.{COLUMNS};
ghost use Rattle.columns.specs.Wiping.{zeros};
ghost use Rattle.stored.specs.Opening.{graph};
ghost use Rattle.question.specs.Replies.{Answers};
ghost use Rattle.question.specs.Answer.{CheckedGives, FromGives};
ghost use Rattle.question.specs.Asked.{question_of};

use crate::links::{group_links, joined, strength_of};
use crate::named::{all_groups, groups_at, strongest_groups};
use crate::ways::shortest_chain;
use columns::{COLUMNS, room};
use index::answers::Answered;
use limits::WINDOWS;
use limits::refusal::Refusal;
use stored::opened::Index;

// The questions A to G with their numbers. The accounts that C, D and E name are lent beside it.
#[derive(Clone, Copy)]
pub enum Question {
    Strength {
        a: u32,
        b: u32,
    },
    Joined {
        a: u32,
        b: u32,
        c: u32,
        d: u32,
    },
    GroupsAt {
        k: u32,
    },
    StrongestGroups,
    AllGroups,
    GroupLinks {
        a: u32,
        b: u32,
        k: u32,
    },
    Chain {
        a: u32,
        b: u32,
        c: u32,
        d: u32,
        k: u32,
    },
}

// A question on an index, in a work space that is 0.
fn answer_of(
    index: Index,
    named: &[u8],
    out: &mut [u8],
    q: Question,
    w: &mut [u32],
) -> Result<Answered, Refusal>
    requires { w.old ≡ zeros (COLUMNS * index.m) }
    ensures { Answers (graph index.entry) (question_of q named.now) out.old result out.new }
{
    match q {
        Question::Strength { a, b } => strength_of(index, a as usize, b as usize),
        Question::Joined { a, b, c, d } => joined(
            index, a as usize, b as usize, c as usize, d as usize,
        ),
        Question::GroupsAt { k } => groups_at(index, named, out, w, k as usize),
        Question::StrongestGroups => strongest_groups(index, named, out, w),
        Question::AllGroups => all_groups(index, named, out, w),
        Question::GroupLinks { a, b, k } => group_links(
            index, out, w, a as usize, b as usize, k as usize,
        ),
        Question::Chain { a, b, c, d, k } => shortest_chain(
            index, out, w, a as usize, b as usize, c as usize, d as usize, k as usize,
        ),
    }
}

// A question on an index: the answer of A and B, or the number of bytes that C to G wrote; or the first refusal of 7 to 12. Bytes of the buffer after the answer stay, and all
// stay on a refusal.
fn answer(bytes: &[u8], named: &[u8], out: &mut [u8], q: Question) -> Result<Answered, Refusal>
    ensures { CheckedGives bytes.now (question_of q named.now) out.old result out.new }
{
    let mut work = room();
    let index = Index::open(bytes, &mut work)?;
    answer_of(index, named, out, q, &mut work[..COLUMNS * index.m])
}

// The same from a window: 13, if there is none of that number, ahead of all else. `desk` counts what is answered, and it alone calls this.
pub fn answer_from(
    bytes: &[u8],
    named: &[u8],
    out: &mut [u8],
    q: Question,
    window: u32,
) -> Result<Answered, Refusal>
    ensures { FromGives bytes.now (question_of q named.now) out.old window result out.new }
{
    if WINDOWS <= window as usize {
        return Err(Refusal::NoWindow);
    }
    answer(bytes, named, out, q)
}
