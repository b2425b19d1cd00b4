// The links of strength at least k of an index, into the work space: their triangles are those of weight at least k.
ghost use Rattle.std.specs.Prelude.{◌≡◌, ◌*◌, length};
ghost use Rattle.laws.proofs.Groups.{size};
ghost use Rattle.columns.specs.Columns.{COLUMNS};
ghost use Rattle.stored.specs.Rows.{IsIndex, graph_in};
ghost use Rattle.chain.specs.Strong.{strong_of};
ghost use Rattle.chain.specs.Load.{LoadGives};

use columns::{KEY, put};
use stored::rows::{link_key, link_strength};

// How many there are.
pub fn count_strong(s: &[u8], m: usize, k: usize) -> usize
    requires index { IsIndex s.now }
    requires s_value { size (graph_in s.now) ≡ m }
    ensures { result ≡ size (strong_of (graph_in s.now) k) }
{
    let mut c: usize = 0;
    for i in 0..m {
        if k <= link_strength(s, i) {
            c += 1;
        }
    }
    c
}

// All h of them, of m links, in order.
pub fn load_strong(s: &[u8], w: &mut [u32], m: usize, h: usize, k: usize)
    requires index { IsIndex s.now }
    requires s_value { size (graph_in s.now) ≡ m }
    requires h_value { h ≡ size (strong_of (graph_in s.now) k) }
    requires w_len { length w.old ≡ COLUMNS * h }
    ensures { LoadGives k h s.now w.old w.new }
{
    let mut j: usize = 0;
    for i in 0..m {
        if k <= link_strength(s, i) {
            put(w, h, KEY, j, link_key(s, i));
            j += 1;
        }
    }
}
