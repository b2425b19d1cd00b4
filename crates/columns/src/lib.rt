// The work space: sixteen columns of m numbers in one lent slice. Entry i of column c stands at c * m + i.
// The slice and m stay two parameters: of a struct of both each function that writes would have to promise, and each loop to keep, that m is what it was.
#![tactic(auto)]

ghost use Rattle.std.specs.Prelude.{◌+◌, ◌*◌, ◌<◌, ◌≤◌, ◌≡◌, length, get_or};
ghost use Rattle.truss.specs.Limits.{max_accounts, max_links};
ghost use Rattle.columns.specs.Columns.{cell, store, entry, store_entry, COLUMNS, link_bound, entry_bound};
ghost use Rattle.columns.specs.Wiping.{Wiped, Wiping, Cleaned, Zeroed, zeros};

use limits::{MOST_ACCOUNTS, MOST_LINKS};

// What each column holds while strengths are computed. Columns 1 and 2 are one, of two entries for each link.
pub const KEY: usize = 0;

pub const NEAR: usize = 1;

pub const SUPPORT: usize = 3;

pub const STRENGTH: usize = 4;

pub const QUEUE: usize = 5;

// The columns from here on are not used then.
pub const FREE: usize = 6;

// And while the forest and the groups are made, from KEY and STRENGTH. Of each link: its parent in the union-find forest, the next weight at which it
// starts joins, its own group.
pub const PARENT: usize = 6;

pub const NEXT: usize = 7;

pub const OWN_GROUP: usize = 8;

// Of each join taken: lower link * HALF + higher link, and its weight.
pub const JOIN_ENDS: usize = 9;

pub const JOIN_WEIGHT: usize = 10;

// Of each group: its strength, its parent, its least link.
pub const GROUP_STRENGTH: usize = 11;

pub const GROUP_PARENT: usize = 12;

pub const GROUP_LEAST: usize = 13;

// Of each root: the number of its group, and the strength of that group.
pub const ROOT_GROUP: usize = 14;

pub const ROOT_STRENGTH: usize = 15;

pub const COLUMNS: usize = 16;

// The numbers in a work space of the most links.
pub const WORK: usize = COLUMNS * MOST_LINKS;

// An entry for each account, and one more.
pub const ACCOUNT_ROW: usize = MOST_ACCOUNTS + 1;

// Two numbers below HALF share an entry: a * HALF + b.
pub const HALF: usize = 65536;

// Above every support.
pub const NO_SUPPORT: usize = 65536;

// Entry i of column c.
#[tactic(auto, using(crate::specs::Laws::column), unfolding(crate::specs::Columns::cell))]
pub fn get(w: &[u32], m: usize, c: usize, i: usize) -> usize
    requires c_bound { c < COLUMNS }
    requires i_lt_m { i < m }
    requires w_len { length w.now ≡ COLUMNS * m }
    ensures { (result ≡ cell w.now m c i) × (result < entry_bound) }
{
    w[c * m + i] as usize
}

// A store at entry i of column c.
#[tactic(auto, using(crate::specs::Laws::column), unfolding(crate::specs::Columns::store))]
pub fn put(w: &mut [u32], m: usize, c: usize, i: usize, x: usize)
    requires c_bound { c < COLUMNS }
    requires i_lt_m { i < m }
    requires x_lt_entry_bound { x < entry_bound }
    requires w_len { length w.old ≡ COLUMNS * m }
    ensures { w.new ≡ store w.old m c i x }
{
    w[c * m + i] = x as u32;
}

// Entry i of the two columns 1 and 2 seen as one of 2 * m entries.
#[tactic(auto, unfolding(crate::specs::Columns::entry))]
pub fn near(w: &[u32], m: usize, i: usize) -> usize
    requires i_bound { i < 2 * m }
    requires w_len { length w.now ≡ COLUMNS * m }
    ensures { (result ≡ entry w.now m i) × (result < entry_bound) }
{
    w[m + i] as usize
}

// A store there.
#[tactic(auto, unfolding(crate::specs::Columns::store_entry))]
pub fn put_near(w: &mut [u32], m: usize, i: usize, x: usize)
    requires i_bound { i < 2 * m }
    requires x_lt_entry_bound { x < entry_bound }
    requires w_len { length w.old ≡ COLUMNS * m }
    ensures { w.new ≡ store_entry w.old m i x }
{
    w[m + i] = x as u32;
}

// Entry i of an account-sized row.
pub fn of(s: &[u32], i: usize) -> usize
    requires { i < length s.now }
    ensures { (result ≡ get_or s.now i 0) × (result < entry_bound) }
{
    s[i] as usize
}

// The entries from .. until of column c at 0.
#[tactic(auto, using(crate::specs::Wiping::wiped_filled))]
pub fn wipe_range(w: &mut [u32], m: usize, c: usize, from: usize, until: usize)
    requires w_len { length w.old ≡ COLUMNS * m }
    requires c_bound { c < COLUMNS }
    requires from_le_until { from ≤ until }
    requires until_le_m { until ≤ m }
    requires m_le_link_bound { m ≤ link_bound }
    ensures { Wiped m c from until w.old w.new }
{
    w[c * m + from..c * m + until].fill(0);
}

// Column c at 0.
#[tactic(auto, using(crate::specs::Wiping::wiping_first))]
pub fn wipe(w: &mut [u32], m: usize, c: usize)
    requires w_len { length w.old ≡ COLUMNS * m }
    requires c_bound { c < COLUMNS }
    requires m_le_link_bound { m ≤ link_bound }
    ensures { Wiping m c m w.old w.new }
{
    wipe_range(w, m, c, 0, m);
}

// The columns from .. until at 0. (A loop of one call: a closure in place of the call would have to say again what it does.)
#[tactic(auto, using(crate::specs::Wiping::cleaned_none, crate::specs::Wiping::cleaned_more))]
pub fn wipe_all(w: &mut [u32], m: usize, from: usize, until: usize)
    requires w_len { length w.old ≡ COLUMNS * m }
    requires from_le_until { from ≤ until }
    requires until_bound { until ≤ COLUMNS }
    requires m_le_link_bound { m ≤ link_bound }
    ensures { Cleaned m from until w.old w.new }
{
    for c in from..until {
        wipe(w, m, c);
    }
}

// The first n entries of an account-sized row at 0.
pub fn zero(s: &mut [u32], n: usize)
    requires n_in_bounds { n ≤ length s.old }
    requires n_le_max_accounts { n ≤ max_accounts }
    ensures { Zeroed n s.old s.new }
{
    s[..n].fill(0);
}

// All that is lent at 0.
#[tactic(auto, unfolding(crate::specs::Wiping::zeros))]
pub fn clear(s: &mut [u32])
    ensures { s.new ≡ zeros (length s.old) }
{
    s.fill(0);
}

// Room for a work space of the most links.
#[tactic(auto, unfolding(crate::specs::Wiping::zeros))]
pub fn room() -> [u32; WORK]
    ensures { result ≡ zeros (COLUMNS * max_links) }
{
    [0u32; WORK]
}

// Room for an entry of each account, and one more.
#[tactic(auto, unfolding(crate::specs::Wiping::zeros))]
pub fn account_room() -> [u32; ACCOUNT_ROW]
    ensures { result ≡ zeros (max_accounts + 1) }
{
    [0u32; ACCOUNT_ROW]
}
