// The number of the link of two accounts.
ghost use Rattle.std.specs.Prelude.{◌≡◌, ◌<◌};
ghost use Rattle.laws.proofs.Groups.{size};
ghost use Rattle.truss.specs.Graph.{link, link_at, same_link};
ghost use Rattle.stored.specs.Find.{number_there};
ghost use Rattle.stored.specs.Rows.{graph_in, IsIndex};

use crate::rows::{link_higher, link_lower};

// Whether link i has these accounts.
fn has_ends(s: &[u8], i: usize, lo: usize, hi: usize) -> bool
    requires index { IsIndex s.now }
    requires i_bound { i < size (graph_in s.now) }
    ensures { result ≡ same_link (record { lo = lo; hi = hi }) (link_at (graph_in s.now) i) }
{
    if link_lower(s, i) != lo {
        return false;
    }
    link_higher(s, i) == hi
}

// The number of the link with these accounts, if there is one.
fn find_pair(s: &[u8], m: usize, lo: usize, hi: usize) -> Option<usize>
    requires index { IsIndex s.now }
    requires s_value { size (graph_in s.now) ≡ m }
    ensures { result ≡ number_there (graph_in s.now) (record { lo = lo; hi = hi }) }
{
    for i in 0..m {
        if has_ends(s, i, lo, hi) {
            return Some(i);
        }
    }
    None
}

// The same for two accounts in either order.
pub fn find_link(s: &[u8], m: usize, a: usize, b: usize) -> Option<usize>
    requires index { IsIndex s.now }
    requires s_value { size (graph_in s.now) ≡ m }
    ensures { result ≡ number_there (graph_in s.now) (link a b) }
{
    if a < b {
        return find_pair(s, m, a, b);
    }
    find_pair(s, m, b, a)
}
