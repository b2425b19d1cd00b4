// Question G: the shortest chain of triangles of weight at least k between two links.
ghost use Rattle.std.specs.Prelude.{◌≡◌, ◌*◌};
ghost use Rattle.truss.specs.Question.{ask_chain};
ghost use Rattle.columns.specs.Columns.{COLUMNS};
ghost use Rattle.columns.specs.Wiping.{zeros};
ghost use Rattle.stored.specs.Opening.{graph};
ghost use Rattle.question.specs.Replies.{Answers};

use crate::checks::{known, level, number};
use chain::between::chain_between;
use index::answers::Answered;
use limits::refusal::Refusal;
use stored::opened::Index;

// G. The chain from the link a-b to the link c-d.
pub fn shortest_chain(
    index: Index,
    out: &mut [u8],
    w: &mut [u32],
    a: usize,
    b: usize,
    c: usize,
    d: usize,
    k: usize,
) -> Result<Answered, Refusal>
    requires { w.old ≡ zeros (COLUMNS * index.m) }
    ensures { Answers (graph index.entry) (ask_chain k a b c d) out.old result out.new }
{
    known(index, &[a, b, c, d])?;
    level(k)?;
    number(index, a, b)?;
    number(index, c, d)?;
    let len = chain_between(index.bytes, out, w, index.n, index.m, k, a, b, c, d);
    if out.len() < len {
        return Err(Refusal::NoRoom);
    }
    Ok(Answered::from(len as u32))
}
