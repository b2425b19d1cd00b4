// The list of the links that are left: those in no queue and not removed. It stands at the end of column QUEUE, from a place on. A level's queue begins anew at the
// start of that column and has no more links than are left, so the two stay apart once no more than half of the links are left; before, all links are gone through.
ghost use Rattle.std.specs.Prelude.{MatchOption, ◌≡◌, ◌*◌, ◌-◌, ◌<◌, ◌≤◌, length};
ghost use Rattle.columns.specs.Columns.{store, QUEUE, COLUMNS, link_bound};
ghost use Rattle.peeling.specs.Rest.{listed_at, Listed, Begun, Lesser, Places, NoneLeft, SomeLeft};

use columns::{NO_SUPPORT, QUEUE, SUPPORT, get, put};

// The first place of the list, and the least support of a link that is left.
#[derive(Clone, Copy)]
pub struct Remains {
    pub place: usize,
    pub least: usize,
}

// Where a list that begins at `place` is read from. None while the queue may run into it: all links are gone through then.
pub fn begin(m: usize, place: usize) -> Option<usize>
    requires { place ≤ m }
    ensures { Begun m place result }
{
    if place < m - place {
        return None;
    }
    Some(place)
}

// Link i of the list that is read from `first` on; of all links if that is none.
pub fn listed(w: &[u32], m: usize, first: Option<usize>, i: usize) -> usize
    requires w_len { length w.now ≡ COLUMNS * m }
    requires i_lt_m { i < m }
    ensures { result ≡ listed_at w.now m first i }
{
    match first {
        Some(_) => get(w, m, QUEUE, i),
        None => i,
    }
}

// The lesser of `best` and x, the support of a link; one that is not left has none.
fn lesser(x: usize, best: usize) -> usize
    ensures { Lesser x best result }
{
    if x == 0 {
        return best;
    }
    best.min(x)
}

// Link e, of support x, goes before place j of the list; the next goes over it if it is not left. Gives the first place then. The store is made either way, so that no
// branch has to be guessed.
fn keep(w: &mut [u32], m: usize, j: usize, e: usize, x: usize) -> usize
    requires w_len { length w.old ≡ COLUMNS * m }
    requires m_le_link_bound { m ≤ link_bound }
    requires le_j { 1 ≤ j }
    requires j_le_m { j ≤ m }
    requires e_lt_m { e < m }
    ensures { Places x j result × (w.new ≡ store w.old m QUEUE (j - 1) e) }
{
    put(w, m, QUEUE, j - 1, e);
    if x == 0 {
        return j;
    }
    j - 1
}

// The list anew, of those links from `first` on that are left. None if no link is left.
pub fn rest(w: &mut [u32], m: usize, first: Option<usize>) -> Option<Remains>
    requires w_len { length w.old ≡ COLUMNS * m }
    requires m_le_link_bound { m ≤ link_bound }
    requires listed { Listed m first w.old }
    ensures { MatchOption result (NoneLeft m w.old w.new) (λ r. SomeLeft m r.place r.least w.old w.new) }
{
    let mut least = NO_SUPPORT;
    let mut place = m;
    let begins = first.unwrap_or(0);
    for i in (begins..m).rev() {
        let e = listed(w, m, first, i);
        let x = get(w, m, SUPPORT, e);
        least = lesser(x, least);
        place = keep(w, m, place, e, x);
    }
    if least < NO_SUPPORT {
        return Some(Remains { place, least });
    }
    None
}
