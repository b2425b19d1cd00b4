// The climb from a link's own group up through parents to the group at k.
ghost use Rattle.std.specs.Prelude.{◌≡◌, ◌<◌, ◌≤◌};
ghost use Rattle.laws.proofs.Groups.{size};
ghost use Rattle.laws.proofs.Stored.{group_count};
ghost use Rattle.truss.specs.Limits.{min_level};
ghost use Rattle.truss.specs.Group.{group_of, groups};
ghost use Rattle.stored.specs.Rows.{graph_in, GroupsAt};
ghost use Rattle.stored.specs.Climb.{ClimbAsks, Climbed};

use crate::rows::{group_parent, group_strength, link_group, link_strength};
use limits::NO_GROUP;

// From group g, whose strength is at least k, up to the group at k. Numbers rise at each step and stay below count.
fn climb(s: &[u8], at: usize, count: usize, k: usize, g: usize) -> usize
    requires { ClimbAsks s.now at count k g }
    ensures { Climbed (graph_in s.now) k g result }
{
    let mut h = g;
    while let Some(p) = group_parent(s, at, h) {
        if group_strength(s, at, p) < k {
            return h;
        }
        h = p;
    }
    h
}

// The number of the group at k with link i, NO_GROUP if the link's strength is below k: the number that the definition gives, so that the contract is an equation with it.
pub fn group_at(s: &[u8], at: usize, count: usize, k: usize, i: usize) -> usize
    requires groups_at { GroupsAt s.now at }
    requires s_value { group_count (graph_in s.now) ≡ count }
    requires min_level_le_k { min_level ≤ k }
    requires i_bound { i < size (graph_in s.now) }
    ensures { result ≡ group_of (graph_in s.now) (groups (graph_in s.now)) k i }
{
    if link_strength(s, i) < k {
        return NO_GROUP;
    }
    let g = link_group(s, i);
    climb(s, at, count, k, g)
}
