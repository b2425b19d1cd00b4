// Questions on named accounts: C, the groups at k that hold all of them; D, of the stored groups that do the strongest; E, all stored groups that do. Each lists them by falling
// strength, then by more accounts held, then by least link.
ghost use Rattle.std.specs.Prelude.{◌≡◌, true, ◌+◌, ◌*◌, ◌<◌, ◌≤◌, length};
ghost use Rattle.truss.specs.Limits.{max_named, min_level};
ghost use Rattle.truss.specs.Question.{accounts_in, ask_all, ask_groups_at, ask_strongest, bad_count, is_group_at, listed, outside};
ghost use Rattle.laws.proofs.Stored.{stored};
ghost use Rattle.limits.specs.Refusals.{checked};
ghost use Rattle.wire.specs.Writing.{Tells};
ghost use Rattle.columns.specs.Columns.{COLUMNS};
ghost use Rattle.columns.specs.Wiping.{zeros};
ghost use Rattle.stored.specs.Opening.{graph};
ghost use Rattle.ordering.specs.Rows.{marked};
ghost use Rattle.question.specs.Replies.{Answers, Lists};
ghost use Rattle.question.specs.Named.{Best, Counts, HeldGives, Kept, LevelGives, StrongestGives, names_checked};

use crate::checks::level;
use crate::lists::give_row;
use columns::{get, put};
use holding::marks::hold;
use index::answers::Answered;
use limits::MOST_NAMED;
use limits::refusal::Refusal;
use ordering::list_groups;
use stored::opened::Index;
use stored::rows::{group_parent, group_strength};
use wire::field_at;

// Whether one of k named accounts is one that the index does not have.
fn some_outside(index: Index, named: &[u8], k: usize) -> bool
    requires named_len { length named.now ≡ 2 * k }
    requires k_le_max_named { k ≤ max_named }
    ensures { result ≡ outside (graph index.entry) (accounts_in named.now) }
{
    for j in 0..k {
        if index.n <= field_at(named, 2 * j) {
            return true;
        }
    }
    false
}

// Whether what is lent names no account, more than sixteen, or half of one.
fn bad_count(named: &[u8]) -> bool
    ensures { result ≡ bad_count named.now }
{
    let len = named.len();
    len == 0 || 2 * MOST_NAMED < len || len % 2 == 1
}

// 8, then 9.
fn names(index: Index, named: &[u8]) -> Result<(), Refusal>
    ensures { checked result ≡ names_checked (graph index.entry) named.now }
{
    if bad_count(named) {
        return Err(Refusal::Named);
    }
    if some_outside(index, named, named.len() / 2) {
        return Err(Refusal::NoAccount);
    }
    Ok(())
}

// The mark of group g stays if the test held.
fn keep_if(w: &mut [u32], m: usize, g: usize, test: bool)
    requires w_len { length w.old ≡ COLUMNS * m }
    requires g_lt_m { g < m }
    ensures { Kept m g test w.old w.new }
{
    if !test {
        put(w, m, 0, g, 0);
    }
}

// Whether stored group g is a group at k: its strength is at least k, and its parent, if it has one, is weaker.
fn is_group_at(index: Index, k: usize, g: usize) -> bool
    requires min_level_le_k { min_level ≤ k }
    requires g_lt_count { g < index.groups }
    ensures { Tells result (is_group_at (graph index.entry) k (stored (graph index.entry) g) ≡ true) }
{
    if group_strength(index.bytes, index.at, g) < k {
        return false;
    }
    match group_parent(index.bytes, index.at, g) {
        None => true,
        Some(p) => group_strength(index.bytes, index.at, p) < k,
    }
}

// Marks stay at groups at k.
fn keep_level(index: Index, w: &mut [u32], k: usize)
    requires w_len { length w.old ≡ COLUMNS * index.m }
    requires min_level_le_k { min_level ≤ k }
    ensures { LevelGives index.entry.bytes.now index.entry.m index.entry.groups k w.old w.new }
{
    for g in 0..index.groups {
        let t = is_group_at(index, k, g);
        keep_if(w, index.m, g, t);
    }
}

// The greater of best and the strength of group g, if it is marked.
fn better(index: Index, w: &[u32], g: usize, best: usize) -> usize
    requires w_len { length w.now ≡ COLUMNS * index.m }
    requires g_lt_count { g < index.groups }
    requires best_bound { best < 65536 }
    ensures { Counts (graph index.entry) index.entry.m g best result w.now }
{
    if get(w, index.m, 0, g) == 0 {
        return best;
    }
    best.max(group_strength(index.bytes, index.at, g))
}

// The greatest strength of the marked groups, 0 if there is none: then there is no mark to keep.
fn greatest(index: Index, w: &[u32]) -> usize
    requires { length w.now ≡ COLUMNS * index.m }
    ensures { Best (graph index.entry) index.entry.m index.entry.groups result w.now }
{
    let mut best = 0;
    for g in 0..index.groups {
        best = better(index, w, g, best);
    }
    best
}

// Marks stay at groups of at least a strength. (The same as `keep_level` by another test: with a closure for it each would bring a law of its test, and the loop is shorter.)
fn keep_strongest(index: Index, w: &mut [u32], best: usize)
    requires { length w.old ≡ COLUMNS * index.m }
    ensures { StrongestGives index.entry.bytes.now index.entry.m index.entry.groups best w.old w.new }
{
    for g in 0..index.groups {
        let t = group_strength(index.bytes, index.at, g);
        keep_if(w, index.m, g, best <= t);
    }
}

// 8 and 9, then the groups that hold all named accounts are marked.
fn hold_named(index: Index, named: &[u8], w: &mut [u32]) -> Result<(), Refusal>
    requires { w.old ≡ zeros (COLUMNS * index.m) }
    ensures { HeldGives index.entry.bytes.now index.entry.m index.entry.groups named.now result w.new }
{
    names(index, named)?;
    hold(index, named, named.len() / 2, w);
    Ok(())
}

// The marked groups as they are listed, after their count, or 12.
fn give_groups(index: Index, out: &mut [u8], w: &mut [u32]) -> Result<Answered, Refusal>
    requires { length w.old ≡ COLUMNS * index.m }
    ensures { Lists (listed (graph index.entry) (marked w.old index.entry.m index.entry.groups)) out.old result out.new }
{
    let r = list_groups(index, w);
    give_row(out, w, index.m, r)
}

// C. The groups at k that hold all named accounts.
pub fn groups_at(
    index: Index,
    named: &[u8],
    out: &mut [u8],
    w: &mut [u32],
    k: usize,
) -> Result<Answered, Refusal>
    requires { w.old ≡ zeros (COLUMNS * index.m) }
    ensures { Answers (graph index.entry) (ask_groups_at k named.now) out.old result out.new }
{
    names(index, named)?;
    level(k)?;
    hold(index, named, named.len() / 2, w);
    keep_level(index, w, k);
    give_groups(index, out, w)
}

// D. Of the stored groups that hold all of them, those whose strength is greatest.
pub fn strongest_groups(
    index: Index,
    named: &[u8],
    out: &mut [u8],
    w: &mut [u32],
) -> Result<Answered, Refusal>
    requires { w.old ≡ zeros (COLUMNS * index.m) }
    ensures { Answers (graph index.entry) (ask_strongest named.now) out.old result out.new }
{
    hold_named(index, named, w)?;
    let best = greatest(index, w);
    keep_strongest(index, w, best);
    give_groups(index, out, w)
}

// E. All stored groups that hold all of them.
pub fn all_groups(
    index: Index,
    named: &[u8],
    out: &mut [u8],
    w: &mut [u32],
) -> Result<Answered, Refusal>
    requires { w.old ≡ zeros (COLUMNS * index.m) }
    ensures { Answers (graph index.entry) (ask_all named.now) out.old result out.new }
{
    hold_named(index, named, w)?;
    give_groups(index, out, w)
}
