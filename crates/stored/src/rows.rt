// The fields of a link and of a group, by number.
ghost use Rattle.std.specs.Prelude.{◌≡◌, ◌+◌, ◌*◌, ◌<◌};
ghost use Rattle.laws.proofs.Groups.{size, strength_at};
ghost use Rattle.laws.proofs.Stored.{group_count, stored};
ghost use Rattle.truss.specs.Graph.{link_at};
ghost use Rattle.truss.specs.Group.{least_link};
ghost use Rattle.columns.specs.Columns.{entry_bound};
ghost use Rattle.stored.specs.Rows.{graph_in, key_at, own_group, parent_there, GroupsAt, IsIndex};

use columns::HALF;
use limits::NO_GROUP;
use wire::field_at;

// One function for each field: its contract names the field, and a place as an argument would have to be said in numbers by each caller.

// The lower account of link i.
pub fn link_lower(s: &[u8], i: usize) -> usize
    requires index { IsIndex s.now }
    requires i_bound { i < size (graph_in s.now) }
    ensures { result ≡ (link_at (graph_in s.now) i).lo }
{
    field_at(s, 5 + 8 * i + 1)
}

// Its higher account.
pub fn link_higher(s: &[u8], i: usize) -> usize
    requires index { IsIndex s.now }
    requires i_bound { i < size (graph_in s.now) }
    ensures { result ≡ (link_at (graph_in s.now) i).hi }
{
    field_at(s, 5 + 8 * i + 3)
}

// The two as one number, by which links stand in order.
pub fn link_key(s: &[u8], i: usize) -> usize
    requires index { IsIndex s.now }
    requires i_bound { i < size (graph_in s.now) }
    ensures { (result ≡ key_at (graph_in s.now) i) × (result < entry_bound) }
{
    let a = link_lower(s, i);
    let b = link_higher(s, i);
    a * HALF + b
}

// Its strength.
pub fn link_strength(s: &[u8], i: usize) -> usize
    requires index { IsIndex s.now }
    requires i_bound { i < size (graph_in s.now) }
    ensures { (result ≡ strength_at (graph_in s.now) i) × (result < 65536) }
{
    usize::from(s[5 + 8 * i + 5])
}

// The group at its own strength.
pub fn link_group(s: &[u8], i: usize) -> usize
    requires index { IsIndex s.now }
    requires i_bound { i < size (graph_in s.now) }
    ensures { result ≡ own_group (graph_in s.now) i }
{
    field_at(s, 5 + 8 * i + 6)
}

// The parent of group g, if it has one.
pub fn group_parent(s: &[u8], at: usize, g: usize) -> Option<usize>
    requires groups_at { GroupsAt s.now at }
    requires g_bound { g < group_count (graph_in s.now) }
    ensures { result ≡ parent_there (graph_in s.now) g }
{
    let p = field_at(s, at + 6 * g + 1);
    if p == NO_GROUP {
        return None;
    }
    Some(p)
}

// Its strength.
pub fn group_strength(s: &[u8], at: usize, g: usize) -> usize
    requires groups_at { GroupsAt s.now at }
    requires g_bound { g < group_count (graph_in s.now) }
    ensures { (result ≡ (stored (graph_in s.now) g).strength) × (result < 65536) }
{
    usize::from(s[at + 6 * g + 3])
}

// Its least link.
pub fn group_least(s: &[u8], at: usize, g: usize) -> usize
    requires groups_at { GroupsAt s.now at }
    requires g_bound { g < group_count (graph_in s.now) }
    ensures { result ≡ least_link (stored (graph_in s.now) g) }
{
    field_at(s, at + 6 * g + 4)
}
