// How many accounts and links each group has. A link is in its own group and in all groups above it, so it goes up through parents: once for each end, and once
// for itself. Accounts are taken one after the other, each in a round of its own, and a group counts an account at the first touch of its round: column 3 has the
// last round that touched it. What a round touched it touched with all above, so the way up ends there. The links with one lower account are neighbours in the
// index, and those with one higher account are put in a chain.
#![tactic(auto)]

ghost use Rattle.std.specs.Prelude.{◌≡◌, ◌+◌, ◌*◌, ◌<◌, ◌≤◌, length};
ghost use Rattle.truss.specs.Limits.{max_accounts};
ghost use Rattle.columns.specs.Columns.{cell, COLUMNS};
ghost use Rattle.columns.specs.Wiping.{zeros};
ghost use Rattle.stored.specs.Opening.{graph};
ghost use Rattle.counting.specs.Touching.{Closed, LinkGives, Small, TouchOne, UpGives};
ghost use Rattle.counting.specs.Counting.{Round, Rounds, member_of};
ghost use Rattle.counting.specs.Ends.{AtHigher, ChainAsks, ChainAt, Chained, LowerGives, pointer};
ghost use Rattle.counting.specs.Gives.{AccountsAsks, AccountsGive, Counted, Held, LinksGive, RoundAsks};

use columns::{KEY, account_room, get, of, put, wipe, wipe_all};
use stored::opened::Index;
use stored::rows::{group_parent, link_group, link_higher, link_lower};

// Of each link: one more than the last link before it with its higher account, 0 if there is none. (A cell is a number and no Option: nothing is allocated, and 0
// is what it has when it is wiped.)
const NEXT: usize = 1;

// Of each group: the last round that touched it, how many accounts and how many links it has.
const LAST: usize = 3;

pub const ACCOUNTS: usize = 4;

pub const LINKS: usize = 5;

// All links in chains by higher account, each chain from its last link back: head has one more than that link.
fn chain_links(index: Index, w: &mut [u32], head: &mut [u32])
    requires { ChainAsks index.bytes.now index.m w.old head.old }
    ensures { Chained index.entry.bytes.now index.entry.m index.entry.m w.old w.new head.new }
{
    for i in 0..index.m {
        let b = link_higher(index.bytes, i);
        let p = of(head, b);
        put(w, index.m, NEXT, i, p);
        head[b] = (i + 1) as u32;
    }
}

// Group x is touched in round r: column c counts one more.
fn touch(w: &mut [u32], m: usize, c: usize, x: usize, r: usize)
    requires w_len { length w.old ≡ COLUMNS * m }
    requires x_lt_m { x < m }
    requires lt_c { 3 < c }
    requires c_bound { c < COLUMNS }
    requires r_bound { r < 65536 }
    requires x_bound { cell w.old m c x < 65535 }
    ensures { TouchOne m c x r w.old w.new }
{
    put(w, m, LAST, x, r);
    let y = get(w, m, c, x);
    put(w, m, c, x, y + 1);
}

// All groups on the way up from group g, to the first that the round touched already: it touched all above that one too.
fn touch_up(index: Index, w: &mut [u32], c: usize, g: usize, r: usize)
    requires g_lt_count { g < index.groups }
    requires lt_c { 3 < c }
    requires c_bound { c < COLUMNS }
    requires w_len { length w.old ≡ COLUMNS * index.m }
    requires small { Small index.m index.groups c w.old }
    requires closed { Closed index.bytes.now index.m index.groups r w.old }
    requires r_bound { r < 65536 }
    ensures { UpGives index.entry.bytes.now index.entry.m index.entry.groups c g r w.old w.new }
{
    let mut next = Some(g);
    while let Some(x) = next {
        if get(w, index.m, LAST, x) == r {
            return;
        }
        touch(w, index.m, c, x, r);
        next = group_parent(index.bytes, index.at, x);
    }
}

// All groups that hold link i.
fn touch_link(index: Index, w: &mut [u32], c: usize, i: usize, r: usize)
    requires i_lt_m { i < index.m }
    requires lt_c { 3 < c }
    requires c_bound { c < COLUMNS }
    requires w_len { length w.old ≡ COLUMNS * index.m }
    requires small { Small index.m index.groups c w.old }
    requires closed { Closed index.bytes.now index.m index.groups r w.old }
    requires r_bound { r < 65536 }
    ensures { LinkGives index.entry.bytes.now index.entry.m index.entry.groups c i r w.old w.new }
{
    let g = link_group(index.bytes, i);
    touch_up(index, w, c, g, r);
}

// The round of account v, first part: the groups that hold a link with lower account v. Those links are neighbours from link p on; gives the link after them.
fn touch_lower(index: Index, w: &mut [u32], v: usize, p: usize) -> usize
    requires round_asks { RoundAsks index.bytes.now index.m index.groups v w.old }
    requires p_le_m { p ≤ index.m }
    ensures { LowerGives index.entry.bytes.now index.entry.m index.entry.groups v p result w.old w.new }
{
    for i in p..index.m {
        if link_lower(index.bytes, i) != v {
            return i;
        }
        touch_link(index, w, ACCOUNTS, i, v + 1);
    }
    index.m
}

// Second part: the groups that hold a link with higher account v, along the chain from link first back.
fn touch_higher(index: Index, w: &mut [u32], v: usize, first: Option<usize>)
    requires round_asks { RoundAsks index.bytes.now index.m index.groups v w.old }
    requires chain_at { ChainAt index.bytes.now index.m v (pointer first) w.old }
    ensures { Round index.entry.bytes.now index.entry.m index.entry.groups (v + 1) (AtHigher index.entry.bytes.now index.entry.m v 0) w.old w.new }
{
    let mut next = first;
    while let Some(e) = next {
        touch_link(index, w, ACCOUNTS, e, v + 1);
        next = get(w, index.m, NEXT, e).checked_sub(1);
    }
}

// Column 4 has the accounts of each group: a round for each account.
fn count_accounts(index: Index, w: &mut [u32], head: &[u32])
    requires { AccountsAsks index.bytes.now index.m index.n index.groups w.old head.now }
    ensures { AccountsGive index.entry.bytes.now index.entry.m index.entry.n index.entry.groups w.old w.new }
{
    let mut i: usize = 0;
    for v in 0..index.n {
        i = touch_lower(index, w, v, i);
        let last = of(head, v).checked_sub(1);
        touch_higher(index, w, v, last);
    }
}

// The accounts of each group in column 4, with an account-sized row of zeros lent.
fn held_with(index: Index, w: &mut [u32], head: &mut [u32])
    requires w_len { length w.old ≡ COLUMNS * index.m }
    requires head_value { head.old ≡ zeros (max_accounts + 1) }
    ensures { Held index.entry.bytes.now index.entry.m index.entry.groups w.old w.new }
{
    wipe_all(w, index.m, LAST, LINKS);
    chain_links(index, w, head);
    count_accounts(index, w, head);
    wipe_all(w, index.m, KEY, ACCOUNTS);
}

// How many accounts each group holds, in column 4, which is 0 after the groups. Columns 0 to 3 are 0 then, and the columns from 5 on stay.
pub fn count_held(index: Index, w: &mut [u32])
    requires { length w.old ≡ COLUMNS * index.m }
    ensures { Held index.entry.bytes.now index.entry.m index.entry.groups w.old w.new }
{
    let mut head = account_room();
    held_with(index, w, &mut head);
}

// Column 5 has the links of each group: a round for each link.
fn count_links(index: Index, w: &mut [u32])
    requires { Rounds index.m index.groups 5 0 (member_of (graph index)) w.old }
    ensures { LinksGive index.entry.bytes.now index.entry.m index.entry.groups w.old w.new }
{
    for i in 0..index.m {
        touch_link(index, w, LINKS, i, i + 1);
    }
}

// How many accounts each group holds, in column 4, and how many links it has with nested ones, in column 5; both are 0 after the groups. Columns 0 to 3 are 0
// then, and the columns from 6 on stay.
pub fn count_all(index: Index, w: &mut [u32])
    requires { length w.old ≡ COLUMNS * index.m }
    ensures { Counted index.entry.bytes.now index.entry.m index.entry.groups w.old w.new }
{
    count_held(index, w);
    wipe(w, index.m, LINKS);
    count_links(index, w);
    wipe(w, index.m, LAST);
}
