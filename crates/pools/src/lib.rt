// The groups at k that hold each account, as rows of their numbers. A stored group's top is the group at k above it, so the group at k of a link is the top of its
// own group. The rows are the lists of the links at each account, where each link becomes its group at k, in place: it gives one entry at most, so what is written
// never passes what is read. A group stands once in a row: column 5 has the last account that took it.
#![tactic(auto)]

ghost use Rattle.std.specs.Prelude.{◌≡◌, ◌+◌, ◌*◌, ◌≤◌, length, unwrap_or};
ghost use Rattle.truss.specs.Limits.{min_level, no_group};
ghost use Rattle.columns.specs.Columns.{COLUMNS};
ghost use Rattle.columns.specs.Wiping.{zeros};
ghost use Rattle.stored.specs.Opening.{graph};
ghost use Rattle.pools.specs.Pools.{PoolRows};
ghost use Rattle.pools.specs.Tops.{LinksAsks, LinksGive, TopAsks, TopIs, TopsAsks, TopsGive};
ghost use Rattle.pools.specs.Packing.{KeepAsks, KeepGives, PackAsks, PackGives, RowAsks, RowGives};

use adjacency::lists::lists;
use columns::{HALF, KEY, get, near, of, put, put_near};
use limits::NO_GROUP;
use stored::opened::Index;
use stored::rows::{group_parent, group_strength, link_group, link_key};

// Of each link: its group at k, NO_GROUP if the link is weaker than k. (A cell is a number and no Option: nothing is allocated.)
const LINK: usize = 3;

// Of each stored group: the group at k with its links, NO_GROUP if it is weaker than k.
pub const TOP: usize = 4;

// Of each group: one more than the last account whose row has it.
const LAST: usize = 5;

// The top of group g, if g is as strong as k, with the tops of the groups after it at hand: a parent has a higher number.
fn top_of(index: Index, w: &[u32], k: usize, g: usize) -> Option<usize>
    requires { TopAsks (graph index) index.m index.groups k g w.now }
    ensures { TopIs (graph index.entry) k g (unwrap_or result no_group) }
{
    if group_strength(index.bytes, index.at, g) < k {
        return None;
    }
    match group_parent(index.bytes, index.at, g) {
        None => Some(g),
        Some(p) => {
            if group_strength(index.bytes, index.at, p) < k {
                return Some(g);
            }
            Some(get(w, index.m, TOP, p))
        }
    }
}

// Column TOP, from the last group down.
fn find_tops(index: Index, w: &mut [u32], k: usize)
    requires { TopsAsks index.m k w.old }
    ensures { TopsGive (graph index.entry) index.entry.m index.entry.groups k w.old w.new }
{
    for g in (0..index.groups).rev() {
        let t = top_of(index, w, k, g);
        put(w, index.m, TOP, g, t.unwrap_or(NO_GROUP));
    }
}

// Columns KEY and LINK, of each link.
fn load_links(index: Index, w: &mut [u32], k: usize)
    requires { LinksAsks (graph index) index.m k w.old }
    ensures { LinksGive (graph index.entry) index.entry.m k w.old w.new }
{
    for i in 0..index.m {
        put(w, index.m, KEY, i, link_key(index.bytes, i));
        let g = link_group(index.bytes, i);
        let t = get(w, index.m, TOP, g);
        put(w, index.m, LINK, i, t);
    }
}

// Entry j of account a's row becomes the group at k of its link, at place `to`, unless there is none or the row has it already. Gives the next place.
fn keep(w: &mut [u32], m: usize, a: usize, j: usize, to: usize) -> usize
    requires { KeepAsks m a j to w.old }
    ensures { KeepGives m a j to result w.old w.new }
{
    let e = near(w, m, j) % HALF;
    let g = get(w, m, LINK, e);
    if g == NO_GROUP {
        return to;
    }
    if get(w, m, LAST, g) == a + 1 {
        return to;
    }
    put(w, m, LAST, g, a + 1);
    put_near(w, m, to, g);
    to + 1
}

// The entries from .. until, the row of account a. Gives the end of what is left of it.
fn pack_row(w: &mut [u32], m: usize, a: usize, from: usize, until: usize) -> usize
    requires { RowAsks m a from until w.old }
    ensures { RowGives m a from until result w.old w.new }
{
    let mut to = from;
    for j in from..until {
        to = keep(w, m, a, j, to);
    }
    to
}

// All rows: that of account a is now the entries start[a] .. end[a].
fn pack(w: &mut [u32], m: usize, n: usize, start: &[u32], end: &mut [u32])
    requires { PackAsks m n w.old start.now end.old }
    ensures { PackGives m n w.old w.new start.now end.new }
{
    for a in 0..n {
        let from = of(start, a);
        let until = of(start, a + 1);
        let to = pack_row(w, m, a, from, until);
        end[a] = to as u32;
    }
}

// For each account the groups at k that hold it, each once: entries start[a] .. end[a] of columns 1 and 2. Column TOP names which stored groups are groups at k, those
// that name themselves; the columns from 6 on stay 0.
pub fn pool_rows(index: Index, k: usize, w: &mut [u32], start: &mut [u32], end: &mut [u32])
    requires w_value { w.old ≡ zeros (COLUMNS * index.m) }
    requires min_level_le_k { min_level ≤ k }
    requires start_len { length start.old ≡ index.n + 1 }
    requires end_len { length end.old ≡ index.n }
    ensures { PoolRows (graph index.entry) k index.entry.n index.entry.m index.entry.groups w.new start.new end.new }
{
    find_tops(index, w, k);
    load_links(index, w, k);
    lists(w, index.m, index.n, start, end);
    pack(w, index.m, index.n, start, end);
}
