// The rows, six numbers to a group.
ghost use Rattle.std.specs.Prelude.{◌≡◌, ◌*◌, ◌<◌, ◌≤◌, length};
ghost use Rattle.columns.specs.Columns.{COLUMNS};
ghost use Rattle.wire.specs.Writing.{up_to, written};
ghost use Rattle.stored.specs.Opening.{graph};
ghost use Rattle.listing.specs.Rows.{Lists, RowAsks, RowsAsks, RowsGives, row_of};

use columns::{COLUMNS, get, room};
use counting::{ACCOUNTS, LINKS, count_all};
use limits::NO_GROUP;
use limits::refusal::Refusal;
use stored::opened::Index;
use stored::rows::{group_least, group_parent, group_strength, link_higher, link_lower};

// The row of group g at the front of what is lent.
fn put_row(out: &mut [u32], index: Index, w: &[u32], g: usize)
    requires row_asks { RowAsks (graph index) index.m index.groups g w.now }
    requires in_bounds { 6 ≤ length out.old }
    ensures { out.new ≡ written out.old 0 (row_of (graph index.entry) g) }
{
    let e = group_least(index.bytes, index.at, g);
    out[0] = group_strength(index.bytes, index.at, g) as u32;
    out[1] = group_parent(index.bytes, index.at, g).unwrap_or(NO_GROUP) as u32;
    out[2] = get(w, index.m, LINKS, g) as u32;
    out[3] = get(w, index.m, ACCOUNTS, g) as u32;
    out[4] = link_lower(index.bytes, e) as u32;
    out[5] = link_higher(index.bytes, e) as u32;
}

// All rows, each straight after the one before.
fn put_rows(out: &mut [u32], index: Index, w: &[u32])
    requires rows_asks { RowsAsks (graph index) index.m index.groups w.now }
    requires count_in_bounds { 6 * index.groups ≤ length out.old }
    ensures { out.new ≡ written out.old 0 (up_to (row_of (graph index.entry)) index.entry.groups) }
{
    for g in 0..index.groups {
        put_row(&mut out[6 * g..], index, w, g);
    }
}

// The rows of an opened index.
fn rows_of(index: Index, out: &mut [u32], w: &mut [u32]) -> Result<u32, Refusal>
    requires { length w.old ≡ COLUMNS * index.m }
    ensures { Lists (graph index.entry) out.old result out.new }
{
    let len = 6 * index.groups;
    if out.len() < len {
        return Err(Refusal::NoRoom);
    }
    count_all(index, w);
    put_rows(out, index, w);
    Ok(len as u32)
}

// The rows of an index, six numbers to a stored group in the order of group numbers: strength, parent (NO_GROUP for none), links with nested ones, accounts held,
// lower and higher end of the least link. Gives how many numbers were written; refused are bytes that are no index (7), then a buffer that is too short
// (12). Numbers of the buffer after the rows stay, and all stay on a refusal.
pub fn rows(index: &[u8], out: &mut [u32]) -> Result<u32, Refusal>
    ensures { RowsGives index.now out.old result out.new }
{
    let mut work = room();
    let opened = Index::open(index, &mut work)?;
    let size = COLUMNS * opened.m;
    rows_of(opened, out, &mut work[..size])
}
