// The records in turn. Column SUM has the stakes taken from each group at k, `own` those of each account that is in none; what is measured is the limit less such a sum.
ghost use Rattle.std.specs.Prelude.{◌≡◌, ◌*◌, ◌<◌, ◌≤◌, length};
ghost use Rattle.columns.specs.Columns.{entry_bound, COLUMNS};
ghost use Rattle.day.specs.Records.{InRow};
ghost use Rattle.day.specs.Sums.{BetAsks, BetGives, Charged, ChargeAsks, HeldGives, RoomGives, RowSafe, TurnAsks, TurnGives};
ghost use Rattle.day.specs.Playing.{PlayGiven, PlayGives};

use crate::record::{Record, record_at};
use columns::{get, near, of, put};

// Of each group: the stakes taken from the accounts that it holds.
pub const SUM: usize = 6;

// Whether each group of a row, entries from .. to of columns 1 and 2, has room for a stake.
fn has_room(w: &[u32], m: usize, from: usize, to: usize, stake: usize, limit: usize) -> bool
    requires row_safe { RowSafe m from to w.now }
    requires stake_lt_entry_bound { stake < entry_bound }
    ensures { RoomGives m from to stake limit result w.now }
{
    for j in from..to {
        let g = near(w, m, j);
        let sum = get(w, m, SUM, g);
        if limit < sum + stake {
            return false;
        }
    }
    true
}

// The stake is taken from each group of the row.
fn charge(w: &mut [u32], m: usize, from: usize, to: usize, stake: usize)
    requires { ChargeAsks m from to stake w.old }
    ensures { Charged m from to stake w.old w.new }
{
    for j in from..to {
        let g = near(w, m, j);
        let sum = get(w, m, SUM, g);
        put(w, m, SUM, g, sum + stake);
    }
}

// A bet of an account that is in groups; gives whether it is taken.
fn bet_held(w: &mut [u32], m: usize, from: usize, to: usize, stake: usize, limit: usize) -> bool
    requires row_safe { RowSafe m from to w.old }
    requires stake_lt_entry_bound { stake < entry_bound }
    requires limit_lt_entry_bound { limit < entry_bound }
    ensures { HeldGives m from to stake limit result w.old w.new }
{
    if !has_room(w, m, from, to, stake, limit) {
        return false;
    }
    charge(w, m, from, to, stake);
    true
}

// A bet of account a; gives whether it is taken.
fn take_bet(
    w: &mut [u32],
    m: usize,
    start: &[u32],
    end: &[u32],
    own: &mut [u32],
    a: usize,
    stake: usize,
    limit: usize,
) -> bool
    requires { BetAsks m a stake limit w.old start.now end.now own.old }
    ensures { BetGives m a stake limit result w.old w.new start.now end.now own.old own.new }
{
    let from = of(start, a);
    let to = of(end, a);
    if from != to {
        return bet_held(w, m, from, to, stake, limit);
    }
    let sum = of(own, a);
    if limit < sum + stake {
        return false;
    }
    own[a] = (sum + stake) as u32;
    true
}

// What a record comes to: whether it is taken, as a new limit always is, and the limit after it.
#[derive(Clone, Copy)]
struct After {
    taken: bool,
    limit: usize,
}

// Record i, under a limit.
fn turn(
    records: &[u8],
    i: usize,
    w: &mut [u32],
    m: usize,
    start: &[u32],
    end: &[u32],
    own: &mut [u32],
    limit: usize,
) -> After
    requires in_row { InRow records.now i }
    requires turn_asks { TurnAsks m limit records.now i w.old start.now end.now own.old }
    ensures { TurnGives m limit result.taken result.limit records.now i w.old w.new start.now end.now own.old own.new }
{
    match record_at(records, i) {
        Record::Bet { account, stake } => {
            let taken = take_bet(
                w,
                m,
                start,
                end,
                own,
                account as usize,
                stake as usize,
                limit,
            );
            After { taken, limit }
        }
        Record::Limit(limit) => After {
            taken: true,
            limit: limit as usize,
        },
    }
}

// So many records, from the opening limit on: their bytes at the front of `taken`, and the last limit.
pub fn play(
    records: &[u8],
    count: usize,
    w: &mut [u32],
    m: usize,
    start: &[u32],
    end: &[u32],
    own: &mut [u32],
    taken: &mut [u8],
    opening: usize,
) -> usize
    requires { PlayGiven m opening count records.now w.old start.now end.now own.old taken.old }
    ensures { PlayGives m opening count result records.now w.old w.new start.now end.now own.old own.new taken.old taken.new }
{
    let mut limit = opening;
    for i in 0..count {
        let after = turn(records, i, w, m, start, end, own, limit);
        taken[i] = u8::from(after.taken);
        limit = after.limit;
    }
    limit
}
