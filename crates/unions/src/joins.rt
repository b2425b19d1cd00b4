// One join of the forest.
ghost use Rattle.std.specs.Prelude.{◌≡◌, ◌+◌, ◌*◌, ◌<◌, min, max};
ghost use Rattle.unions.specs.Joins.{UnitePre, united, JoinAsks, JoinGives};

use crate::roots::find;
use columns::{HALF, JOIN_ENDS, JOIN_WEIGHT, PARENT, get, put};

// The greater of the roots a and b gets the lesser for a parent; the join of e and f is the next of the forest.
fn unite(w: &mut [u32], m: usize, a: usize, b: usize, e: usize, f: usize, k: usize, joins: usize)
    requires { UnitePre m a b e f k joins w.old }
    ensures { w.new ≡ united m a b e f k joins w.old }
{
    let x = a.min(b);
    let y = a.max(b);
    put(w, m, PARENT, y, x);
    put(w, m, JOIN_ENDS, joins, e * HALF + f);
    put(w, m, JOIN_WEIGHT, joins, k);
}

// The join of the links e and f, of weight k, taken if it closes no ring. Gives the number of joins.
pub fn join(w: &mut [u32], m: usize, e: usize, f: usize, k: usize, joins: usize) -> usize
    requires { JoinAsks m e f k joins w.old }
    ensures { JoinGives m e f k joins result w.old w.new }
{
    if get(w, m, PARENT, e) == get(w, m, PARENT, f) {
        return joins;
    }
    let a = find(w, m, e);
    let b = find(w, m, f);
    if a == b {
        return joins;
    }
    unite(w, m, a, b, e, f, k, joins);
    joins + 1
}
