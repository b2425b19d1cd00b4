// Marks of groups, a column for each rank.
ghost use Rattle.std.specs.Prelude.{◌≡◌, ◌+◌, ◌*◌, ◌<◌, ◌≤◌, length};
ghost use Rattle.truss.specs.Limits.{max_accounts, max_links};
ghost use Rattle.columns.specs.Columns.{COLUMNS};
ghost use Rattle.columns.specs.Wiping.{zeros};
ghost use Rattle.stored.specs.Opening.{graph};
ghost use Rattle.holding.specs.Ranks.{rank_of};
ghost use Rattle.holding.specs.Turns.{HoldAsks, HoldGives, LiftAll, LiftGives, LiftOne, Marked, MarkGiven, MeetAll, MeetOne, Meets, OwnMarks};

use crate::ranks::{column_of, rank_named};
use columns::{account_room, get, put, wipe_range};
use stored::opened::Index;
use stored::rows::{group_parent, link_group, link_higher, link_lower};

// Group g is marked for an account in the account's column, if it has one.
fn mark(w: &mut [u32], m: usize, g: usize, column: Option<usize>)
    requires w_len { length w.old ≡ COLUMNS * m }
    requires g_lt_m { g < m }
    requires rank_bound { rank_of column ≤ COLUMNS }
    ensures { Marked m g (rank_of column) w.old w.new }
{
    if let Some(c) = column {
        put(w, m, c, g, 1);
    }
}

// The group that link i names, for both its ends.
fn mark_link(index: Index, w: &mut [u32], d: usize, ranks: &[u32], i: usize)
    requires mark_given { MarkGiven (graph index) d ranks.now }
    requires own_marks { OwnMarks index.bytes.now index.m index.groups d ranks.now i w.old }
    requires i_lt_m { i < index.m }
    ensures { OwnMarks index.entry.bytes.now index.entry.m index.entry.groups d ranks.now (i + 1) w.new }
{
    let g = link_group(index.bytes, i);
    let a = link_lower(index.bytes, i);
    let b = link_higher(index.bytes, i);
    let p = column_of(ranks, a);
    mark(w, index.m, g, p);
    let q = column_of(ranks, b);
    mark(w, index.m, g, q);
}

// The groups that links name, in a work space that is 0.
fn mark_links(index: Index, w: &mut [u32], d: usize, ranks: &[u32])
    requires mark_given { MarkGiven (graph index) d ranks.now }
    requires w_value { w.old ≡ zeros (COLUMNS * index.m) }
    ensures { OwnMarks index.entry.bytes.now index.entry.m index.entry.groups d ranks.now index.entry.m w.new }
{
    for i in 0..index.m {
        mark_link(index, w, d, ranks, i);
    }
}

// The parent of group g, if g is marked in column c.
fn lift(index: Index, w: &mut [u32], c: usize, g: usize)
    requires w_len { length w.old ≡ COLUMNS * index.m }
    requires c_bound { c < COLUMNS }
    requires g_lt_count { g < index.groups }
    ensures { LiftOne index.entry.bytes.now index.entry.m c g w.old w.new }
{
    if get(w, index.m, c, g) == 0 {
        return;
    }
    if let Some(p) = group_parent(index.bytes, index.at, g) {
        put(w, index.m, c, p, 1);
    }
}

// All groups above those that are marked in column c. Numbers rise from a group to its parent, so one pass does.
fn lift_column(index: Index, w: &mut [u32], c: usize)
    requires w_len { length w.old ≡ COLUMNS * index.m }
    requires c_bound { c < COLUMNS }
    ensures { LiftGives index.entry.bytes.now index.entry.m index.entry.groups c w.old w.new }
{
    for g in 0..index.groups {
        lift(index, w, c, g);
    }
}

// The same in the first d columns. (This and `meet_column` are loops of one call: a closure in place of the call would have to say again what it does.)
fn lift_all(index: Index, w: &mut [u32], d: usize)
    requires w_len { length w.old ≡ COLUMNS * index.m }
    requires d_bound { d ≤ COLUMNS }
    ensures { LiftAll index.entry.bytes.now index.entry.m index.entry.groups d w.old w.new }
{
    for c in 0..d {
        lift_column(index, w, c);
    }
}

// The mark of group g in column 0 goes, if column c has none.
fn meet(w: &mut [u32], m: usize, c: usize, g: usize)
    requires w_len { length w.old ≡ COLUMNS * m }
    requires c_bound { c < COLUMNS }
    requires g_lt_m { g < m }
    ensures { MeetOne m c g w.old w.new }
{
    if get(w, m, c, g) != 0 {
        return;
    }
    put(w, m, 0, g, 0);
}

// Column 0 keeps what column c has.
fn meet_column(w: &mut [u32], m: usize, count: usize, c: usize)
    requires w_len { length w.old ≡ COLUMNS * m }
    requires c_nonzero { 0 < c }
    requires c_bound { c < COLUMNS }
    requires count_le_m { count ≤ m }
    requires m_le_max_links { m ≤ max_links }
    ensures { Meets m c count w.old w.new }
{
    for g in 0..count {
        meet(w, m, c, g);
    }
}

// Column 0 keeps what all of the first d columns have. The others of these are 0 then.
fn meet_all(w: &mut [u32], m: usize, count: usize, d: usize)
    requires w_len { length w.old ≡ COLUMNS * m }
    requires d_nonzero { 0 < d }
    requires d_bound { d ≤ COLUMNS }
    requires count_le_m { count ≤ m }
    requires m_le_max_links { m ≤ max_links }
    ensures { MeetAll m count d w.old w.new }
{
    for c in 1..d {
        meet_column(w, m, count, c);
        wipe_range(w, m, c, 0, count);
    }
}

// Column 0 marks the groups that hold all k named accounts; the ranks stand in lent memory.
fn hold_with(index: Index, named: &[u8], k: usize, w: &mut [u32], ranks: &mut [u32])
    requires hold_asks { HoldAsks index.n index.m k named.now w.old }
    requires max_accounts_in_bounds { max_accounts ≤ length ranks.old }
    ensures { HoldGives index.entry.bytes.now index.entry.m index.entry.groups named.now w.new }
{
    let d = rank_named(ranks, index.n, named, k);
    mark_links(index, w, d, ranks);
    lift_all(index, w, d);
    meet_all(w, index.m, index.groups, d);
}

// In a work space that is 0: column 0 marks the groups that hold all k named accounts, by 1. All else is 0 then.
pub fn hold(index: Index, named: &[u8], k: usize, w: &mut [u32])
    requires { HoldAsks index.n index.m k named.now w.old }
    ensures { HoldGives index.entry.bytes.now index.entry.m index.entry.groups named.now w.new }
{
    let mut ranks = account_room();
    hold_with(index, named, k, w, &mut ranks);
}
