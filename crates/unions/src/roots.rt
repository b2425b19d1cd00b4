// The union-find forest of the links, in column PARENT: a parent is never above its child, so a root is the least link of its component.
ghost use Rattle.unions.specs.Find.{FindPre, Found, HalvePre, Halved};

use columns::{PARENT, get, put};

// Hangs x, whose parent is p, under p's parent, and gives that.
fn halve(w: &mut [u32], m: usize, x: usize, p: usize) -> usize
    requires { HalvePre m x p w.old }
    ensures { Halved m x result w.old w.new }
{
    let q = get(w, m, PARENT, p);
    put(w, m, PARENT, x, q);
    q
}

// The root of a link; halves the path on the way.
pub fn find(w: &mut [u32], m: usize, from: usize) -> usize
    requires { FindPre m from w.old }
    ensures { Found m from result w.old w.new }
{
    let mut x = from;
    let mut p = get(w, m, PARENT, x);
    // A while: where the climb ends is what it finds, so there is no range to name.
    while p != x {
        x = halve(w, m, x, p);
        p = get(w, m, PARENT, x);
    }
    x
}
