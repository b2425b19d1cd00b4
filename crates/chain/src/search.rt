// The search: breadth-first over triangles from the second link, until every link that is nearer than the first one has been spread.
ghost use Rattle.chain.specs.Search.{OfferPre, Offer, AllAsks, AllGives, OverAsks, OverGives, SpreadAsks, SpreadGives, SettledAsks, Settled, SearchAsks, SearchGives};

use columns::{HALF, QUEUE, get, put};
use thirds::list::{MET, SIDE, thirds};

// Of each link: distance * HALF + third account, 0 while it is not reached. (A cell is a number and no Option: nothing is allocated.) Of the first link and of those
// nearer than it, the distance is the number of triangles of a shortest chain to the second link, and the third account makes the first triangle of such a chain,
// the first by accounts. Of the others it is no less than that number: the search stops before they are settled.
pub const NEAREST: usize = 3;

// The other two links of that triangle, one * HALF + other.
pub const SIDES: usize = 4;

// Where the search stands: the end of the queue, and the account that the marks are at.
#[derive(Clone, Copy)]
struct Front {
    tail: usize,
    at: usize,
}

// Link x is offered a triangle: v is distance * HALF + third account, s the other two links. It takes what is nearer or comes first. A link that was not reached
// then waits.
fn offer(w: &mut [u32], m: usize, x: usize, v: usize, s: usize, tail: usize) -> usize
    requires { OfferPre m x v s tail w.old }
    ensures { Offer m x v s tail result w.old w.new }
{
    let old = get(w, m, NEAREST, x);
    if old == 0 {
        put(w, m, NEAREST, x, v);
        put(w, m, SIDES, x, s);
        put(w, m, QUEUE, tail, x);
        return tail + 1;
    }
    if old <= v {
        return tail;
    }
    put(w, m, NEAREST, x, v);
    put(w, m, SIDES, x, s);
    tail
}

// The triangle of the accounts a, b and c, whose links are p = a-b, g = a-c and h = b-c, is offered to all three at distance d.
fn offer_all(
    w: &mut [u32],
    m: usize,
    d: usize,
    a: usize,
    b: usize,
    c: usize,
    p: usize,
    g: usize,
    h: usize,
    from: usize,
) -> usize
    requires { AllAsks m d a b c p g h from w.old }
    ensures { AllGives m d a b c p g h from result w.old w.new }
{
    let t = offer(w, m, p, d * HALF + c, g * HALF + h, from);
    let u = offer(w, m, g, d * HALF + b, p * HALF + h, t);
    offer(w, m, h, d * HALF + a, p * HALF + g, u)
}

// Each of the listed triangles on link p = a-b.
fn offer_listed(
    w: &mut [u32],
    m: usize,
    d: usize,
    a: usize,
    b: usize,
    p: usize,
    count: usize,
    from: usize,
) -> usize
    requires { OverAsks m d a b p count from w.old }
    ensures { OverGives m d a b p count from result w.old w.new }
{
    let mut tail = from;
    for j in 0..count {
        let g = get(w, m, SIDE, j);
        let x = get(w, m, MET, j);
        tail = offer_all(w, m, d, a, b, x / HALF, p, g - 1, x % HALF, tail);
    }
    tail
}

// Each triangle on link p is offered to its links at distance d.
fn spread(
    w: &mut [u32],
    m: usize,
    n: usize,
    start: &[u32],
    mark: &mut [u32],
    d: usize,
    p: usize,
    at: usize,
    from: usize,
) -> Front
    requires { SpreadAsks m n d p at from w.old start.now mark.old }
    ensures { SpreadGives m n d p at from result.tail result.at w.old w.new start.now mark.old mark.new }
{
    let l = thirds(w, m, n, start, mark, p, at);
    let tail = offer_listed(w, m, d, l.centre, l.walked, p, l.count, from);
    Front { tail, at: l.at }
}

// Whether link e is reached at a distance of no more than d.
fn is_settled(w: &[u32], m: usize, e: usize, d: usize) -> bool
    requires { SettledAsks m e w.now }
    ensures { Settled m e d result w.now }
{
    let x = get(w, m, NEAREST, e);
    x != 0 && x / HALF <= d
}

// Columns NEAREST and SIDES for chains from link e to link f, where nothing is reached yet: f is spread first, then the links that wait, until the first of them
// is no nearer than e. The marks are at account `from`. Each link waits once, so the bound m + 1 is never met; with it the loop ends by what is seen in it.
pub fn search(
    w: &mut [u32],
    m: usize,
    n: usize,
    start: &[u32],
    mark: &mut [u32],
    e: usize,
    f: usize,
    from: usize,
)
    requires { SearchAsks m n e f from w.old start.now mark.old }
    ensures { SearchGives m n e f from w.old w.new start.now mark.old }
{
    let mut p = f;
    let mut d: usize = 1;
    let mut at = from;
    let mut tail: usize = 0;
    for head in 0..m + 1 {
        let s = spread(w, m, n, start, mark, d, p, at, tail);
        tail = s.tail;
        at = s.at;
        if tail <= head {
            return;
        }
        p = get(w, m, QUEUE, head);
        d = get(w, m, NEAREST, p) / HALF;
        if is_settled(w, m, e, d) {
            return;
        }
        d += 1;
    }
}
