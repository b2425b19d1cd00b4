// The start of a level: the links of its support go into the queue.
ghost use Rattle.std.specs.Prelude.{◌≡◌, ◌*◌, ◌<◌, ◌≤◌, length};
ghost use Rattle.columns.specs.Columns.{cell, STRENGTH, COLUMNS, link_bound, no_support};
ghost use Rattle.peeling.specs.Seed.{Seeded, AccountAsks, HubAsks, HubGives, SeedAsks, SeedGives};

use crate::rest::listed;
use columns::{HALF, STRENGTH, SUPPORT, get, near};
use removal::queue::push;

// Link e goes into the queue if it has support s and is not in it yet.
fn seed_one(w: &mut [u32], m: usize, e: usize, s: usize, tail: usize) -> usize
    requires w_len { length w.old ≡ COLUMNS * m }
    requires m_le_link_bound { m ≤ link_bound }
    requires e_lt_m { e < m }
    requires tail_lt_m { cell w.old m STRENGTH e ≡ 0 → tail < m }
    requires s_lt_no_support { s < no_support }
    ensures { Seeded m e s tail result w.old w.new }
{
    if get(w, m, SUPPORT, e) != s {
        return tail;
    }
    if get(w, m, STRENGTH, e) != 0 {
        return tail;
    }
    push(w, m, e, s, tail)
}

// An account whose list has more links is a hub. Its links are seeded together, so that they are removed together and its list is marked once, not for each of them. Any
// number is right; this one is tried, not searched for.
const HUB: usize = 128;

// The links of support s at account a.
fn seed_account(
    w: &mut [u32],
    m: usize,
    start: &[u32],
    stop: &[u32],
    a: usize,
    s: usize,
    from: usize,
) -> usize
    requires { AccountAsks m a s from w.old start.now stop.now }
    ensures { HubGives m s from result w.old w.new }
{
    let mut tail = from;
    let first = start[a] as usize;
    let end = stop[a] as usize;
    for i in first..end {
        let x = near(w, m, i);
        tail = seed_one(w, m, x % HALF, s, tail);
    }
    tail
}

// Those of account a if it is a hub; else none.
fn seed_hub(
    w: &mut [u32],
    m: usize,
    start: &[u32],
    stop: &[u32],
    a: usize,
    s: usize,
    from: usize,
) -> usize
    requires { AccountAsks m a s from w.old start.now stop.now }
    ensures { HubGives m s from result w.old w.new }
{
    if (stop[a] as usize) - (start[a] as usize) <= HUB {
        return from;
    }
    seed_account(w, m, start, stop, a, s, from)
}

// The links of support s at the hubs, hub by hub, so that the marks move seldom.
pub fn seed_hubs(w: &mut [u32], m: usize, n: usize, start: &[u32], stop: &[u32], s: usize) -> usize
    requires { HubAsks m n s 0 w.old start.now stop.now }
    ensures { HubGives m s 0 result w.old w.new }
{
    let mut tail: usize = 0;
    for a in 0..n {
        tail = seed_hub(w, m, start, stop, a, s, tail);
    }
    tail
}

// All links of support s, the least there is, by the list that is read from `first` on, after the first `from` in the queue. Gives how many are in it then.
pub fn seed(w: &mut [u32], m: usize, first: Option<usize>, s: usize, from: usize) -> usize
    requires { SeedAsks m first s from w.old }
    ensures { SeedGives m first s from result w.old w.new }
{
    let mut tail = from;
    let begins = first.unwrap_or(0);
    for i in begins..m {
        let e = listed(w, m, first, i);
        tail = seed_one(w, m, e, s, tail);
    }
    tail
}
