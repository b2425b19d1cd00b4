// Question G on the bytes of an index: its links of strength at least k into the work space, the search from the second link, the chain from the first.
ghost use Rattle.std.specs.Prelude.{◌≡◌, unwrap_or};
ghost use Rattle.chain.specs.Ways.{count_of, from_of};
ghost use Rattle.chain.specs.Between.{LeadAsks, LeadGives, WayAsks, WayGives, InAsks, BetweenAsks, Answered, Beyond};

use crate::load::{count_strong, load_strong};
use crate::search::{NEAREST, search};
use crate::write::{Way, write_chain};
use adjacency::lists::lists;
use adjacency::marks::mark_all;
use columns::{COLUMNS, HALF, KEY, account_room, get};
use thirds::find::find_pair;

// How many triangles are written: those of the chain, none if there is no chain.
fn triangles(way: Option<Way>) -> usize
    ensures { result ≡ count_of way }
{
    match way {
        Some(chain) => chain.count,
        None => 0,
    }
}

// The entries for chains from link e to link f; how many triangles the shortest has, if there is one.
fn lead_in(
    w: &mut [u32],
    m: usize,
    n: usize,
    start: &mut [u32],
    mark: &mut [u32],
    e: usize,
    f: usize,
) -> Option<usize>
    requires { LeadAsks m n e f w.old start.old mark.old }
    ensures { LeadGives m n e f (unwrap_or result 0) w.old w.new start.old mark.old }
{
    lists(w, m, n, start, mark);
    let a = get(w, m, KEY, f) / HALF;
    mark_all(w, m, n, start, mark, a);
    search(w, m, n, start, mark, e, f, a);
    let x = get(w, m, NEAREST, e);
    if x == 0 {
        return None;
    }
    Some(x / HALF)
}

// The chain from the link a-b to the link c-d, if there is one: there is none where one of them is no link here.
fn way_between(
    w: &mut [u32],
    m: usize,
    n: usize,
    a: usize,
    b: usize,
    c: usize,
    d: usize,
) -> Option<Way>
    requires { WayAsks m n a b c d w.old }
    ensures { WayGives m n a b c d (from_of result) (count_of result) w.old w.new }
{
    let e = find_pair(w, m, n, a, b)?;
    let f = find_pair(w, m, n, c, d)?;
    let mut start = account_room();
    let mut mark = account_room();
    let count = lead_in(w, m, n, &mut start[..n + 1], &mut mark[..n], e, f)?;
    Some(Way { count, from: e })
}

// The same on an index of m links, of which h have strength k or more, in a work space for those.
fn between_in(
    s: &[u8],
    out: &mut [u8],
    w: &mut [u32],
    n: usize,
    m: usize,
    h: usize,
    k: usize,
    a: usize,
    b: usize,
    c: usize,
    d: usize,
) -> usize
    requires { InAsks n m h k a b c d s.now w.old }
    ensures { Answered k a b c d result s.now out.old out.new }
{
    load_strong(s, w, m, h, k);
    let way = way_between(w, h, n, a, b, c, d);
    let len = 2 + 6 * triangles(way);
    if out.len() < len {
        return len;
    }
    write_chain(out, w, h, way);
    len
}

// The bytes that the answer has: the count and the triangles of the shortest chain at k from the link a-b to the link c-d. They are written at the front of what is
// lent if they fit, and nothing is if not: the length is told either way. The work space is 0 before; the part that the links of strength at least k take of it is scratch, the rest stays.
pub fn chain_between(
    s: &[u8],
    out: &mut [u8],
    w: &mut [u32],
    n: usize,
    m: usize,
    k: usize,
    a: usize,
    b: usize,
    c: usize,
    d: usize,
) -> usize
    requires { BetweenAsks n m a b c d s.now w.old }
    ensures { Answered k a b c d result s.now out.old out.new × Beyond k s.now w.old w.new }
{
    let h = count_strong(s, m, k);
    let size = COLUMNS * h;
    between_in(s, out, &mut w[..size], n, m, h, k, a, b, c, d)
}
