// Closing margins: the groups at k by number, in a row, and of each the limit less the stakes taken, as signed numbers and as eight bytes each.
#![tactic(auto)]

ghost use Rattle.std.specs.Prelude.{◌≡◌, ◌+◌, ◌*◌, ◌<◌, ◌≤◌, length, pos, ◌-ℤ◌};
ghost use Rattle.std.specs.Int.Signed.{mag};
ghost use Rattle.truss.specs.Limits.{margin_length};
ghost use Rattle.truss.specs.Lists.{concat_map};
ghost use Rattle.truss.specs.Call.{overwrite};
ghost use Rattle.truss.specs.Bets.{margin_bytes};
ghost use Rattle.columns.specs.Columns.{entry_bound, link_bound, COLUMNS};
ghost use Rattle.wire.specs.Writing.{written};
ghost use Rattle.margins.specs.Margins.{Listed, margin_in, margins_in, RowGiven, TakeGives};

use columns::{get, put};
use day::play::SUM;
use limits::MARGIN_BYTES;
use pools::TOP;
use wire::paste;

// The groups at k by number.
const LEVEL: usize = 7;

// Group g goes to place t of the row, if it is a group at k: if it names itself in column TOP. Gives the next place.
fn take_group(w: &mut [u32], m: usize, g: usize, t: usize) -> usize
    requires w_len { length w.old ≡ COLUMNS * m }
    requires g_lt_m { g < m }
    requires t_lt_m { t < m }
    requires m_le_link_bound { m ≤ link_bound }
    ensures { TakeGives m g t result w.old w.new }
{
    if get(w, m, TOP, g) != g {
        return t;
    }
    put(w, m, LEVEL, t, g);
    t + 1
}

// The groups at k, by number, into column LEVEL; gives how many there are.
pub fn list_groups(w: &mut [u32], m: usize, count: usize) -> usize
    requires w_len { length w.old ≡ COLUMNS * m }
    requires count_le_m { count ≤ m }
    requires m_le_link_bound { m ≤ link_bound }
    ensures { Listed m count result w.old w.new }
{
    let mut t: usize = 0;
    for g in 0..count {
        t = take_group(w, m, g, t);
    }
    t
}

// A margin: the limit less the stakes taken, below zero where they are more.
fn margin(limit: usize, sum: usize) -> i64
    requires limit_lt_entry_bound { limit < entry_bound }
    requires sum_lt_entry_bound { sum < entry_bound }
    ensures { result ≡ pos limit -ℤ pos sum }
{
    limit as i64 - sum as i64
}

// The same of group j of the row.
fn margin_of(w: &[u32], m: usize, j: usize, limit: usize) -> i64
    requires { RowGiven m (j + 1) limit w.now }
    ensures { (result ≡ margin_in w.now m limit j) × (mag result < entry_bound) }
{
    let g = get(w, m, LEVEL, j);
    let sum = get(w, m, SUM, g);
    margin(limit, sum)
}

// The margins of the first r groups of the row, at the front of what is lent.
pub fn write_margins(out: &mut [i64], w: &[u32], m: usize, r: usize, limit: usize)
    requires row_given { RowGiven m r limit w.now }
    requires r_in_bounds { r ≤ length out.old }
    ensures { out.new ≡ overwrite (margins_in w.now m limit r) out.old }
{
    for j in 0..r {
        out[j] = margin_of(w, m, j, limit);
    }
}

// The same as bytes, eight to a margin, high byte first.
pub fn write_bytes(out: &mut [u8], w: &[u32], m: usize, r: usize, limit: usize)
    requires row_given { RowGiven m r limit w.now }
    requires margin_length_in_bounds { r * margin_length ≤ length out.old }
    ensures { out.new ≡ written out.old 0 (concat_map margin_bytes (margins_in w.now m limit r)) }
{
    for j in 0..r {
        let bytes = margin_of(w, m, j, limit).to_be_bytes();
        paste(&mut out[j * MARGIN_BYTES..], &bytes);
    }
}
