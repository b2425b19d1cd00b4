// From sorted links to the strength of each link.
#![tactic(auto)]

ghost use Rattle.adjacency.specs.Lists.{NameAsks};
ghost use Rattle.strength.specs.Whole.{WorkAsks, WorkGives, StrengthsGive};

use adjacency::lists::lists;
use columns::{COLUMNS, FREE, account_room, wipe_all};
use peeling::peel::peel;
use triangles::count_triangles;

// The strengths, with account-sized memory lent. Gives the look-ups of the first count.
fn work(w: &mut [u32], m: usize, n: usize, start: &mut [u32], mark: &mut [u32]) -> usize
    requires { WorkAsks m n w.old start.old mark.old }
    ensures { WorkGives m n result w.old w.new start.old mark.old }
{
    lists(w, m, n, start, mark);
    let lookups = count_triangles(w, m, n, start, mark);
    peel(w, m, n, start, mark);
    lookups
}

// Column STRENGTH from column KEY, which stays; every other entry is then 0. Gives the look-ups of the first triangle count.
pub fn strengths(w: &mut [u32], m: usize, n: usize) -> usize
    requires { NameAsks m n w.old }
    ensures { StrengthsGive m n result w.old w.new }
{
    if m == 0 {
        return 0;
    }
    let mut start = account_room();
    let mut mark = account_room();
    let lookups = work(w, m, n, &mut start[..n + 1], &mut mark[..n]);
    wipe_all(w, m, FREE, COLUMNS);
    lookups
}
