// The queue of the links that are to be removed.
ghost use Rattle.std.specs.Prelude.{◌≡◌, ◌+◌, ◌*◌, ◌<◌, ◌≤◌, length};
ghost use Rattle.columns.specs.Columns.{store, STRENGTH, QUEUE, COLUMNS, link_bound, no_support};

use columns::{QUEUE, STRENGTH, put};

// Link x goes into the queue, at the strength s + 2.
pub fn push(w: &mut [u32], m: usize, x: usize, s: usize, tail: usize) -> usize
    requires w_len { length w.old ≡ COLUMNS * m }
    requires x_lt_m { x < m }
    requires tail_lt_m { tail < m }
    requires m_le_link_bound { m ≤ link_bound }
    requires s_lt_no_support { s < no_support }
    ensures { (result ≡ tail + 1) × (w.new ≡ store (store w.old m STRENGTH x (s + 2)) m QUEUE tail x) }
{
    put(w, m, STRENGTH, x, s + 2);
    put(w, m, QUEUE, tail, x);
    tail + 1
}
