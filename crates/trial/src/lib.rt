// A day tried on an opened index: the checks, the rows of the groups at k, the records in turn, the margins.
#![tactic(auto)]

ghost use Rattle.std.specs.Prelude.{◌≡◌, ◌+◌, ◌*◌, ◌<◌, length};
ghost use Rattle.truss.specs.Limits.{max_accounts};
ghost use Rattle.truss.specs.Bets.{records_in};
ghost use Rattle.columns.specs.Columns.{entry_bound, COLUMNS};
ghost use Rattle.columns.specs.Wiping.{zeros};
ghost use Rattle.stored.specs.Opening.{graph};
ghost use Rattle.trial.specs.Trial.{BytesOf, CloseAsks, CloseGives, InGives, NumbersOf};

use columns::account_room;
use day::check::day_fault;
use day::play::play;
use limits::refusal::Refusal;
use limits::{MARGIN_BYTES, RECORD_BYTES};
use margins::{list_groups, write_bytes, write_margins};
use pools::pool_rows;
use stored::opened::Index;

// What a day comes to: how many groups at k there are, and the last limit.
#[derive(Clone, Copy)]
struct Closing {
    groups: usize,
    limit: usize,
}

// A day of so many records without a fault: played, if there is room for the margins. Rows of n + 1, n and n numbers are lent, the last with zeros.
fn close_with(
    index: Index,
    records: &[u8],
    count: usize,
    k: usize,
    opening: usize,
    taken: &mut [u8],
    room: usize,
    w: &mut [u32],
    start: &mut [u32],
    end: &mut [u32],
    own: &mut [u32],
) -> Result<Closing, Refusal>
    requires close_asks { CloseAsks index records.now count k opening taken.old w.old }
    requires start_len { length start.old ≡ index.n + 1 }
    requires end_len { length end.old ≡ index.n }
    requires own_value { own.old ≡ zeros (max_accounts + 1) }
    ensures { CloseGives (graph index.entry) index.entry.m (records_in records.now) k opening room taken.old taken.new result w.new }
{
    pool_rows(index, k, w, start, end);
    let m = index.m;
    let groups = list_groups(w, m, index.groups);
    if room < groups {
        return Err(Refusal::NoRoom);
    }
    let limit = play(records, count, w, m, start, end, own, taken, opening);
    Ok(Closing { groups, limit })
}

// The same, with rows of its own.
fn close(
    index: Index,
    records: &[u8],
    count: usize,
    k: usize,
    opening: usize,
    taken: &mut [u8],
    room: usize,
    w: &mut [u32],
) -> Result<Closing, Refusal>
    requires { CloseAsks index records.now count k opening taken.old w.old }
    ensures { CloseGives (graph index.entry) index.entry.m (records_in records.now) k opening room taken.old taken.new result w.new }
{
    let n = index.n;
    let mut start = account_room();
    let mut end = account_room();
    let mut own = account_room();
    close_with(
        index,
        records,
        count,
        k,
        opening,
        taken,
        room,
        w,
        &mut start[..n + 1],
        &mut end[..n],
        &mut own,
    )
}

// A day with its checks: 10, 16, 15, by record 9, 15, then 12.
fn try_in(
    index: Index,
    records: &[u8],
    k: usize,
    opening: usize,
    taken: &mut [u8],
    room: usize,
    w: &mut [u32],
) -> Result<Closing, Refusal>
    requires w_value { w.old ≡ zeros (COLUMNS * index.m) }
    requires opening_lt_entry_bound { opening < entry_bound }
    ensures { InGives (graph index.entry) index.entry.m (records_in records.now) k opening room taken.old taken.new result w.new }
{
    day_fault(records, index.n, k, opening)?;
    let count = records.len() / RECORD_BYTES;
    if taken.len() < count {
        return Err(Refusal::NoRoom);
    }
    close(index, records, count, k, opening, taken, room, w)
}

// The number of margins written, as numbers.
pub fn try_of(
    index: Index,
    records: &[u8],
    k: usize,
    opening: usize,
    taken: &mut [u8],
    margins: &mut [i64],
    w: &mut [u32],
) -> Result<u32, Refusal>
    requires w_value { w.old ≡ zeros (COLUMNS * index.m) }
    requires opening_lt_entry_bound { opening < entry_bound }
    ensures numbers_of_lem { NumbersOf (graph index.entry) (records_in records.now) k opening taken.old margins.old result taken.new margins.new }
    ensures w_len_unchanged { length w.new ≡ length w.old }
{
    let closing = try_in(index, records, k, opening, taken, margins.len(), w)?;
    write_margins(margins, w, index.m, closing.groups, closing.limit);
    Ok(closing.groups as u32)
}

// The same, as bytes. What the two share is `try_in`; each has its own room and its own call that writes, and a closure for them would be longer than both.
pub fn try_bytes_of(
    index: Index,
    records: &[u8],
    k: usize,
    opening: usize,
    taken: &mut [u8],
    margins: &mut [u8],
    w: &mut [u32],
) -> Result<u32, Refusal>
    requires w_value { w.old ≡ zeros (COLUMNS * index.m) }
    requires opening_lt_entry_bound { opening < entry_bound }
    ensures bytes_of { BytesOf (graph index.entry) (records_in records.now) k opening taken.old margins.old result taken.new margins.new }
    ensures w_len_unchanged { length w.new ≡ length w.old }
{
    let room = margins.len() / MARGIN_BYTES;
    let closing = try_in(index, records, k, opening, taken, room, w)?;
    write_bytes(margins, w, index.m, closing.groups, closing.limit);
    Ok(closing.groups as u32)
}
