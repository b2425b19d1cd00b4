// The checks that several questions make: 9, 10 and 11.
ghost use Rattle.truss.specs.Graph.{link, link_number};
ghost use Rattle.truss.specs.Question.{bad_level, no_link, outside};
ghost use Rattle.stored.specs.Opening.{graph};
ghost use Rattle.question.specs.Checks.{OneCheck};

use limits::bad_level;
use limits::refusal::Refusal;
use stored::find::find_link;
use stored::opened::Index;

// 9: an account that the index does not have.
pub fn known(index: Index, accounts: &[usize]) -> Result<(), Refusal>
    ensures { OneCheck (outside (graph index.entry) accounts.now) 9 tt result }
{
    for a in accounts {
        if index.n <= *a {
            return Err(Refusal::NoAccount);
        }
    }
    Ok(())
}

// 10: a level at which there are no groups.
pub fn level(k: usize) -> Result<(), Refusal>
    ensures { OneCheck (bad_level k) 10 tt result }
{
    if bad_level(k) {
        return Err(Refusal::NoLevel);
    }
    Ok(())
}

// The number of the link of two accounts; 11, if they have none.
pub fn number(index: Index, a: usize, b: usize) -> Result<usize, Refusal>
    ensures { OneCheck (no_link (graph index.entry) a b) 11 (link_number (graph index.entry) (link a b)) result }
{
    find_link(index.bytes, index.m, a, b).ok_or(Refusal::NoLink)
}
