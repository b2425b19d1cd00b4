// Whether bytes are an index, and what is known of it. The bytes are judged by building the index of the links that they name and comparing.
ghost use Rattle.std.specs.Prelude.{◌≡◌, ◌*◌, ◌<◌, ◌≤◌, length};
ghost use Rattle.truss.specs.Limits.{max_links};
ghost use Rattle.truss.specs.Record.{kind_index_head};
ghost use Rattle.truss.specs.LinksFile.{read_head};
ghost use Rattle.columns.specs.Columns.{link_bound, COLUMNS};
ghost use Rattle.columns.specs.Wiping.{zeros};
ghost use Rattle.wire.specs.Wire.{place_bound};
ghost use Rattle.linksfile.specs.Load.{ScanAsks};
ghost use Rattle.index.specs.Solved.{Blank};
ghost use Rattle.index.specs.Open.{KeysRead, NextKey, OpenAsks, OpenSays, cleared, opening_of};

use crate::solve::solve;
use columns::{
    COLUMNS, GROUP_LEAST, GROUP_PARENT, GROUP_STRENGTH, HALF, JOIN_ENDS, JOIN_WEIGHT, KEY,
    OWN_GROUP, STRENGTH, clear, put, wipe, wipe_range,
};
use indexfile::{groups_place, same_index};
use linksfile::{Head, read_head};
use wire::{INDEX_HEAD, STRONG_LINK, field_at, whole_record};

// What is known of an index: how many accounts and links it has, where its groups stand, and how many they are.
#[derive(Clone, Copy)]
pub struct Outline {
    pub n: usize,
    pub m: usize,
    pub at: usize,
    pub groups: usize,
}

// The key of the strong link at a place, if one stands there and comes after the last key.
fn next_key(s: &[u8], at: usize, n: usize, last: usize) -> Option<usize>
    requires { at < place_bound }
    ensures { NextKey s.now n at last result }
{
    if !whole_record(s, at, STRONG_LINK) {
        return None;
    }
    let a = field_at(s, at + 1);
    let b = field_at(s, at + 3);
    if b <= a {
        return None;
    }
    if n <= b {
        return None;
    }
    let k = a * HALF + b;
    if k <= last {
        return None;
    }
    Some(k)
}

// The keys of an index's strong links into column 0; whether all are there, in order.
fn read_keys(s: &[u8], n: usize, m: usize, w: &mut [u32]) -> bool
    requires { ScanAsks m n w.old }
    ensures { KeysRead s.now n m result w.new }
{
    let mut last: usize = 0;
    for i in 0..m {
        match next_key(s, 5 + 8 * i, n, last) {
            None => return false,
            Some(k) => {
                put(w, m, KEY, i, k);
                last = k;
            }
        }
    }
    true
}

// What was solved at 0; all else is 0 already.
fn forget(w: &mut [u32], m: usize, joins: usize, groups: usize)
    requires w_len { length w.old ≡ COLUMNS * m }
    requires m_le_link_bound { m ≤ link_bound }
    requires joins_le_m { joins ≤ m }
    requires groups_le_m { groups ≤ m }
    requires blank { Blank m joins groups w.old }
    ensures { w.new ≡ zeros (COLUMNS * m) }
{
    wipe(w, m, KEY);
    wipe(w, m, STRENGTH);
    wipe(w, m, OWN_GROUP);
    wipe_range(w, m, JOIN_ENDS, 0, joins);
    wipe_range(w, m, JOIN_WEIGHT, 0, joins);
    wipe_range(w, m, GROUP_STRENGTH, 0, groups);
    wipe_range(w, m, GROUP_PARENT, 0, groups);
    wipe_range(w, m, GROUP_LEAST, 0, groups);
}

// The opening of bytes whose head is good, in a work space of sixteen numbers for each link, which is 0 afterwards.
fn open_in(s: &[u8], w: &mut [u32], n: usize, m: usize) -> Option<Outline>
    requires { OpenAsks s.now n m w.old }
    ensures open_says { OpenSays s.now result }
    ensures w_after { w.new ≡ zeros (COLUMNS * m) }
{
    if !read_keys(s, n, m, w) {
        clear(w);
        return None;
    }
    let z = solve(w, m, n);
    let joins = z.joins;
    let groups = z.groups;
    let is = same_index(s, w, n, m, joins, groups);
    forget(w, m, joins, groups);
    let at = groups_place(m, joins);
    if is {
        return Some(Outline { n, m, at, groups });
    }
    None
}

// Whether bytes are an index: its outline, if they are. What is lent for the work space is 0 afterwards in its sixteen numbers for each link that a good head names; the rest
// stays.
pub fn open(index: &[u8], work: &mut [u32]) -> Option<Outline>
    requires { COLUMNS * max_links ≤ length work.old }
    ensures open_says { OpenSays index.now result }
    ensures work_after { work.new ≡ cleared (read_head kind_index_head index.now) work.old }
{
    match read_head(index, INDEX_HEAD) {
        Err(_) => None,
        Ok(Head { n, m }) => {
            let size = COLUMNS * m;
            open_in(index, &mut work[..size], n, m)
        }
    }
}
