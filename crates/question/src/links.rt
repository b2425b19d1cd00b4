// Questions on links: A, the strength of one and the triangles of at least that weight that hold it; B, the largest k at which two are joined; F, the links of the group at k with one.
ghost use Rattle.std.specs.Prelude.{◌≡◌, ◌≢◌, ◌*◌, ◌<◌, ◌≤◌, eqb, length};
ghost use Rattle.truss.specs.Limits.{min_level, no_group};
ghost use Rattle.truss.specs.Lists.{any};
ghost use Rattle.truss.specs.Group.{group_at, group_of, groups};
ghost use Rattle.truss.specs.Question.{ask_joined, ask_links, ask_strength};
ghost use Rattle.laws.proofs.Groups.{size, strength_at};
ghost use Rattle.columns.specs.Columns.{COLUMNS};
ghost use Rattle.wire.specs.Writing.{Tells};
ghost use Rattle.stored.specs.Opening.{graph};
ghost use Rattle.question.specs.Replies.{Answers};
ghost use Rattle.question.specs.Links.{FirmnessGives, JoinedGives, Members, NumberGives};

use crate::checks::{known, level, number};
use crate::lists::give;
use columns::put;
use index::answers::Answered;
use limits::refusal::Refusal;
use limits::{LEAST_LEVEL, NO_GROUP, Strength};
use stored::climb::group_at;
use stored::opened::Index;
use stored::rows::link_strength;
use support::support_at;

// The strength of link e, and how many triangles of at least that weight hold it.
fn strength_and_support(index: Index, e: usize) -> Result<Answered, Refusal>
    requires { e < size (graph index) }
    ensures { FirmnessGives (graph index.entry) e result }
{
    let t = link_strength(index.bytes, e);
    let x = support_at(index.bytes, index.m, e, t);
    match Strength::of(t) {
        Some(k) => Ok(Answered {
            value: k.number() as u32,
            second: x as u32,
        }),
        // No link of an index has another strength (laws: strength_at_least_2, strength-max).
        None => Err(Refusal::NoIndex),
    }
}

// A. The strength of a link, and how many triangles of at least that weight hold it.
pub fn strength_of(index: Index, a: usize, b: usize) -> Result<Answered, Refusal>
    ensures { NumberGives (graph index.entry) (ask_strength a b) result }
{
    known(index, &[a, b])?;
    let e = number(index, a, b)?;
    strength_and_support(index, e)
}

// Whether link f is in the group at k with link e, which has one: its strength is k or more.
fn in_one_group(index: Index, k: usize, e: usize, f: usize) -> bool
    requires min_level_le_k { min_level ≤ k }
    requires e_bound { e < size (graph index) }
    requires f_bound { f < size (graph index) }
    requires k_bound { k ≤ strength_at (graph index) e }
    ensures { result ≡ any (eqb f) (group_at (graph index.entry) k e) }
{
    let g = group_at(index.bytes, index.at, index.groups, k, e);
    g == group_at(index.bytes, index.at, index.groups, k, f)
}

// The largest k at which they are joined, 0 if none: the number that B answers with.
fn joined_up_to(index: Index, e: usize, f: usize) -> usize
    requires e_bound { e < size (graph index) }
    requires f_bound { f < size (graph index) }
    ensures { JoinedGives (graph index.entry) e f result }
{
    let most = link_strength(index.bytes, e);
    for k in (LEAST_LEVEL..most + 1).rev() {
        if in_one_group(index, k, e, f) {
            return k;
        }
    }
    0
}

// B. The largest k at which two links are joined.
pub fn joined(index: Index, a: usize, b: usize, c: usize, d: usize) -> Result<Answered, Refusal>
    ensures { NumberGives (graph index.entry) (ask_joined a b c d) result }
{
    known(index, &[a, b, c, d])?;
    let e = number(index, a, b)?;
    let f = number(index, c, d)?;
    Ok(Answered::from(joined_up_to(index, e, f) as u32))
}

// Whether g is a group, and that at k with link i.
fn inside(index: Index, k: usize, g: usize, i: usize) -> bool
    requires level { min_level ≤ k }
    requires i_bound { i < size (graph index) }
    ensures { Tells result ((g ≢ no_group) × (g ≡ group_of (graph index.entry) (groups (graph index.entry)) k i)) }
{
    if g == NO_GROUP {
        return false;
    }
    g == group_at(index.bytes, index.at, index.groups, k, i)
}

// Column 0 marks the links of the group at k with link e.
fn mark_members(index: Index, w: &mut [u32], k: usize, e: usize)
    requires w_len { length w.old ≡ COLUMNS * index.m }
    requires level { min_level ≤ k }
    requires e_bound { e < size (graph index) }
    ensures { Members (graph index.entry) k e index.entry.m index.entry.m w.new }
{
    let g = group_at(index.bytes, index.at, index.groups, k, e);
    for i in 0..index.m {
        let x = inside(index, k, g, i);
        put(w, index.m, 0, i, usize::from(x));
    }
}

// F. The links of the group at k with a link; none if its strength is below k.
pub fn group_links(
    index: Index,
    out: &mut [u8],
    w: &mut [u32],
    a: usize,
    b: usize,
    k: usize,
) -> Result<Answered, Refusal>
    requires { length w.old ≡ COLUMNS * index.m }
    ensures { Answers (graph index.entry) (ask_links k a b) out.old result out.new }
{
    known(index, &[a, b])?;
    level(k)?;
    let e = number(index, a, b)?;
    mark_members(index, w, k, e);
    give(out, w, index.m, index.m)
}
