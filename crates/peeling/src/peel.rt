// Peeling: from supports to strengths.
ghost use Rattle.std.specs.Prelude.{◌≡◌, ◌*◌, ◌≤◌, length};
ghost use Rattle.peeling.specs.Bare.{First, Bare};
ghost use Rattle.peeling.specs.Drain.{Finished, DrainAsks, DrainGives};
ghost use Rattle.peeling.specs.Peel.{LevelAsks, LevelGives, LevelsAsk, LevelsGive, PeelAsks, PeelInAsks, PeelClears};
ghost use Rattle.columns.specs.Columns.{COLUMNS, link_bound};

use crate::rest::{begin, rest};
use crate::seed::{seed, seed_hubs};
use columns::{NEAR, QUEUE, STRENGTH, SUPPORT, account_room, get, put, wipe, wipe_all, zero};
use removal::centre::turn_to;
use removal::remove::remove;

// The supports are wiped if all links that were left are in the queue.
fn finish(w: &mut [u32], m: usize, all: usize, tail: usize)
    requires w_len { length w.old ≡ COLUMNS * m }
    requires m_le_link_bound { m ≤ link_bound }
    ensures { Finished m all tail w.old w.new }
{
    if all <= tail {
        wipe(w, m, SUPPORT);
    }
}

// Removes all links that wait, the first `until` in the queue, and those that fall to s, until all that were left, at most `all`, are in the queue: then no triangle
// has to be taken off any more.
fn drain(
    w: &mut [u32],
    m: usize,
    n: usize,
    start: &[u32],
    stop: &mut [u32],
    mark: &mut [u32],
    s: usize,
    until: usize,
    all: usize,
)
    requires { DrainAsks m n s until all w.old start.now stop.old mark.old }
    ensures { DrainGives m n s until all w.old w.new start.now stop.old stop.new mark.old mark.new }
{
    let mut head: usize = 0;
    let mut tail = until;
    // No account is n, and the marks of n are whatever stands there: no case for no account is needed.
    let mut at = n;
    // A while: the queue grows while it is gone through, so there is no range to name.
    while head < tail && tail < all {
        let e = get(w, m, QUEUE, head);
        at = turn_to(w, m, n, start, stop, mark, e, at);
        tail = remove(w, m, n, start, stop, mark, e, at, s, tail);
        head += 1;
    }
    finish(w, m, all, tail);
}

// Removes the links of the least support s there is, and those that fall to it. The list of the links that are left begins at `place`.
fn level(
    w: &mut [u32],
    m: usize,
    n: usize,
    start: &[u32],
    stop: &mut [u32],
    mark: &mut [u32],
    s: usize,
    place: usize,
)
    requires { LevelAsks m n s place w.old start.now stop.old mark.old }
    ensures { LevelGives m n s place w.old w.new start.now stop.old stop.new mark.old mark.new }
{
    let hubs = seed_hubs(w, m, n, start, stop, s);
    let tail = seed(w, m, begin(m, place), s, hubs);
    drain(w, m, n, start, stop, mark, s, tail, m - place);
}

// The strength of a link of x triangles before the first level: 2 if there are none, else 0, as column STRENGTH stores that it is not known yet.
fn first_strength(x: usize) -> usize
    ensures { First x result }
{
    if x == 0 {
        return 2;
    }
    0
}

// The strength of the links in no triangle; that of the others is not known yet.
fn bare(w: &mut [u32], m: usize)
    requires w_len { length w.old ≡ COLUMNS * m }
    requires m_le_link_bound { m ≤ link_bound }
    ensures { Bare m m w.old w.new }
{
    for e in 0..m {
        let x = get(w, m, SUPPORT, e);
        put(w, m, STRENGTH, e, first_strength(x));
    }
}

// All levels, from the least support up.
fn peel_levels(w: &mut [u32], m: usize, n: usize, start: &[u32], stop: &mut [u32], mark: &mut [u32])
    requires { LevelsAsk m n w.old start.now stop.old mark.old }
    ensures { LevelsGive m n w.old w.new start.now stop.old mark.old }
{
    let mut left = rest(w, m, None);
    while let Some(r) = left {
        level(w, m, n, start, stop, mark, r.least, r.place);
        left = rest(w, m, begin(m, r.place));
    }
}

// The peeling, with account-sized memory lent. stop[a]: where the list of account a ends. At first it is whole.
fn peel_in(w: &mut [u32], m: usize, n: usize, start: &[u32], stop: &mut [u32], mark: &mut [u32])
    requires { PeelInAsks m n w.old start.now stop.old mark.old }
    ensures { PeelClears m n w.old w.new start.now mark.old mark.new }
{
    stop.copy_from_slice(&start[1..]);
    bare(w, m);
    peel_levels(w, m, n, start, stop, mark);
    wipe_all(w, m, NEAR, SUPPORT);
    wipe(w, m, QUEUE);
    zero(mark, n);
}

// Column STRENGTH from column SUPPORT. The other columns from NEAR to QUEUE and the marks are then 0; all else stays.
pub fn peel(w: &mut [u32], m: usize, n: usize, start: &[u32], mark: &mut [u32])
    requires { PeelAsks m n w.old start.now mark.old }
    ensures { PeelClears m n w.old w.new start.now mark.old mark.new }
{
    let mut stop = account_room();
    peel_in(w, m, n, start, &mut stop[..n], mark);
}
