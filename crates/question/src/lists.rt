// The answer of C to F: a count and that many numbers. F's are those that column 0 marks, rising; those of C, D and E stand in a row.
ghost use Rattle.std.specs.Prelude.{◌≡◌, ◌≢◌, ◌+◌, ◌*◌, ◌<◌, ◌≤◌, length};
ghost use Rattle.truss.specs.Lists.{concat_map};
ghost use Rattle.truss.specs.Record.{field};
ghost use Rattle.wire.specs.Wire.{place_bound};
ghost use Rattle.wire.specs.Writing.{written};
ghost use Rattle.question.specs.Replies.{Lists};
ghost use Rattle.columns.specs.Columns.{cell, link_bound};
ghost use Rattle.ordering.specs.Rows.{front, marked};
ghost use Rattle.question.specs.Lists.{ColumnGiven, CountGives, PutGives, RowGiven, row_bytes};

use columns::get;
use index::answers::Answered;
use limits::refusal::Refusal;
use sorting::ROW;
use wire::{field_record, paste};

// The count of a list, if there is room for the whole; else 12. What the whole answer gives.
fn give_count(out: &mut [u8], count: usize) -> Result<Answered, Refusal>
    requires { count ≤ link_bound }
    ensures { CountGives count out.old result out.new }
{
    let len = 2 + 2 * count;
    if out.len() < len {
        return Err(Refusal::NoRoom);
    }
    paste(out, &field_record(count));
    Ok(Answered::from(len as u32))
}

// How many of the numbers below size are marked.
fn count_marks(w: &[u32], m: usize, size: usize) -> usize
    requires { ColumnGiven m size w.now }
    ensures { result ≡ length (marked w.now m size) }
{
    let mut count = 0;
    for i in 0..size {
        count += usize::from(get(w, m, 0, i) != 0);
    }
    count
}

// The number i at a place, if x is not 0; gives the place after it.
fn put_number(out: &mut [u8], at: usize, i: usize, x: usize) -> usize
    requires at_lt_place_bound { at < place_bound }
    requires at_in_bounds { x ≢ 0 → at + 2 ≤ length out.old }
    ensures { PutGives at i x result out.old out.new }
{
    if x == 0 {
        return at;
    }
    let rec = field_record(i);
    paste(&mut out[at..], &rec);
    at + 2
}

// The numbers below size that are marked, at the front of what is lent.
fn write_marks(out: &mut [u8], w: &[u32], m: usize, size: usize)
    requires column_given { ColumnGiven m size w.now }
    requires size_in_bounds { 2 * length (marked w.now m size) ≤ length out.old }
    ensures { out.new ≡ written out.old 0 (concat_map field (marked w.now m size)) }
{
    let mut at = 0;
    for i in 0..size {
        let x = get(w, m, 0, i);
        at = put_number(out, at, i, x);
    }
}

// The whole answer of numbers that are marked, or 12.
pub fn give(out: &mut [u8], w: &[u32], m: usize, size: usize) -> Result<Answered, Refusal>
    requires { ColumnGiven m size w.now }
    ensures { Lists (marked w.now m size) out.old result out.new }
{
    let given = give_count(out, count_marks(w, m, size))?;
    write_marks(&mut out[2..], w, m, size);
    Ok(given)
}

// The first r numbers of the row, at the front of what is lent.
fn write_row(out: &mut [u8], w: &[u32], m: usize, r: usize)
    requires row_given { RowGiven m r w.now }
    requires r_in_bounds { 2 * r ≤ length out.old }
    ensures { out.new ≡ written out.old 0 (row_bytes w.now m r) }
{
    for i in 0..r {
        let rec = field_record(get(w, m, ROW, i));
        paste(&mut out[2 * i..], &rec);
    }
}

// The whole answer of the first r numbers of the row, or 12.
pub fn give_row(out: &mut [u8], w: &[u32], m: usize, r: usize) -> Result<Answered, Refusal>
    requires { RowGiven m r w.now }
    ensures { Lists (front (cell w.now m 3) r) out.old result out.new }
{
    let given = give_count(out, r)?;
    write_row(&mut out[2..], w, m, r);
    Ok(given)
}
