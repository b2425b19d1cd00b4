// From the sorted keys in column 0 to strengths, forest and groups.
ghost use Rattle.index.specs.Solved.{SolveGiven, SolveGives};

use groups::tree::{Sizes, tree};
use strength::strengths;

pub fn solve(w: &mut [u32], m: usize, n: usize) -> Sizes
    requires { SolveGiven n m w.old }
    ensures { SolveGives n m result.joins result.groups w.old w.new }
{
    strengths(w, m, n);
    tree(w, m, n)
}
