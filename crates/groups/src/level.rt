// The groups of one level.
ghost use Rattle.std.specs.Prelude.{◌+◌, ◌<◌};
ghost use Rattle.groups.specs.Marking.{MarkAsks, MarkGives, MarksAsks, MarksGives};
ghost use Rattle.groups.specs.Numbering.{NumberAsks, NumberGives, NumbersAsks, NumbersGives};
ghost use Rattle.groups.specs.Naming.{NameAsks, NameGives, NamesAsks, NamesGives, AdoptAsks, AdoptGives, AdoptsAsks, AdoptsGives};
ghost use Rattle.groups.specs.Level.{GroupAsks, GroupGives};

use columns::{
    GROUP_LEAST, GROUP_PARENT, GROUP_STRENGTH, OWN_GROUP, ROOT_GROUP, ROOT_STRENGTH, STRENGTH, get,
    put,
};
use limits::NO_GROUP;
use unions::roots::find;

// Marks the root of link e, if its strength is k.
fn mark_one(w: &mut [u32], m: usize, e: usize, k: usize)
    requires { MarkAsks m e k w.old }
    ensures { MarkGives m e k w.old w.new }
{
    if get(w, m, STRENGTH, e) != k {
        return;
    }
    let r = find(w, m, e);
    put(w, m, ROOT_STRENGTH, r, k);
}

// Marks the roots of the links of strength k. (The walks here are a loop of one call each: with a closure in place of the call each would have to say what it does with the work
// space, which the call's contract says already.)
fn mark_roots(w: &mut [u32], m: usize, k: usize)
    requires { MarksAsks m k w.old }
    ensures { MarksGives m k m w.old w.new }
{
    for e in 0..m {
        mark_one(w, m, e, k);
    }
}

// A marked root r is the least link of the next group, number g. Gives the number of groups.
fn number_one(w: &mut [u32], m: usize, r: usize, k: usize, g: usize) -> usize
    requires { NumberAsks m r k g w.old }
    ensures { NumberGives m r k g result w.old w.new }
{
    if get(w, m, ROOT_STRENGTH, r) != k {
        return g;
    }
    put(w, m, ROOT_GROUP, r, g);
    put(w, m, GROUP_STRENGTH, g, k);
    // A column holds numbers alone, so no parent is one of them, as the index stores it.
    put(w, m, GROUP_PARENT, g, NO_GROUP);
    put(w, m, GROUP_LEAST, g, r);
    g + 1
}

// The groups of strength k: the marked roots, rising, numbered on from `from`.
fn number_roots(w: &mut [u32], m: usize, k: usize, from: usize) -> usize
    requires { NumbersAsks m k from w.old }
    ensures { NumbersGives m k m from result w.old w.new }
{
    let mut g = from;
    for r in 0..m {
        g = number_one(w, m, r, k, g);
    }
    g
}

// The own group of link e, if its strength is k.
fn name_one(w: &mut [u32], m: usize, e: usize, k: usize)
    requires { NameAsks m e k w.old }
    ensures { NameGives m e k w.old w.new }
{
    if get(w, m, STRENGTH, e) != k {
        return;
    }
    let r = find(w, m, e);
    let g = get(w, m, ROOT_GROUP, r);
    put(w, m, OWN_GROUP, e, g);
}

// The own groups of the links of strength k.
fn name_groups(w: &mut [u32], m: usize, k: usize)
    requires { NamesAsks m k w.old }
    ensures { NamesGives m k m w.old w.new }
{
    for e in 0..m {
        name_one(w, m, e, k);
    }
}

// Group g, if it has no parent yet, gets the group of strength k that holds its least link.
fn adopt_one(w: &mut [u32], m: usize, k: usize, g: usize)
    requires { AdoptAsks m k g w.old }
    ensures { AdoptGives m k g w.old w.new }
{
    if get(w, m, GROUP_PARENT, g) != NO_GROUP {
        return;
    }
    let l = get(w, m, GROUP_LEAST, g);
    let r = find(w, m, l);
    if get(w, m, ROOT_STRENGTH, r) != k {
        return;
    }
    let h = get(w, m, ROOT_GROUP, r);
    put(w, m, GROUP_PARENT, g, h);
}

// The groups below `count` that have no parent get theirs, if it has strength k.
fn adopt(w: &mut [u32], m: usize, k: usize, count: usize)
    requires { AdoptsAsks m k count w.old }
    ensures { AdoptsGives m k count count w.old w.new }
{
    for g in 0..count {
        adopt_one(w, m, k, g);
    }
}

// The groups of strength k, after the joins of weight k. Gives the number of groups.
pub fn group(w: &mut [u32], m: usize, k: usize, from: usize) -> usize
    requires { GroupAsks m k from w.old }
    ensures { GroupGives m k from result w.old w.new }
{
    mark_roots(w, m, k);
    let groups = number_roots(w, m, k, from);
    name_groups(w, m, k);
    adopt(w, m, k, from);
    groups
}
