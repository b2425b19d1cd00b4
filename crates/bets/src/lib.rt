// A limit tried on a day's bets. From C the records are lent as bytes, nine to each, and margins are written as eight bytes each (`bytes`); here records are lent as a slice of structs, which is
// copied into such a row of bytes, and margins are written as signed numbers. Both are tried by `trial`.
#![tactic(auto)]

ghost use Rattle.std.specs.Prelude.{◌≡◌, ◌+◌, ◌*◌, ◌≤◌, length};
ghost use Rattle.truss.specs.Limits.{record_length};
ghost use Rattle.columns.specs.Wiping.{zeros};
ghost use Rattle.wire.specs.Writing.{written};
ghost use Rattle.bets.specs.Row.{bet_bytes, row_of};
ghost use Rattle.bets.specs.Limit.{LimitGives, RowGives, row_length};

use columns::{COLUMNS, room};
use limits::refusal::Refusal;
use limits::{MOST_RECORDS, RECORD_BYTES};
use stored::opened::Index;
use trial::try_of;
use wire::paste;

pub mod bytes;

// The most records that are looked at: one more than are taken, so that too many are seen to be.
const MOST_BETS: usize = MOST_RECORDS + 1;

// Their bytes.
const ROW_BYTES: usize = MOST_BETS * RECORD_BYTES;

// A record of a day: a bet, if kind is 0, of a stake on an account; else a new limit. The kind is a byte and no enum: every byte is taken, as by the definition, and an enum would take fewer.
#[derive(Clone, Copy)]
pub struct Bet {
    pub kind: u8,
    pub account: u32,
    pub amount: u32,
}

// A record as bytes.
fn bet_record(bet: Bet) -> [u8; RECORD_BYTES]
    ensures { result ≡ bet_bytes bet }
{
    let [a, b, c, d] = bet.account.to_be_bytes();
    let [e, f, g, h] = bet.amount.to_be_bytes();
    [bet.kind, a, b, c, d, e, f, g, h]
}

// A record, put in its place in the row; every other byte stays.
fn put_bet(row: &mut [u8], i: usize, b: Bet)
    requires { record_length * i + record_length ≤ length row.old }
    ensures { row.new ≡ written row.old (record_length * i) (bet_bytes b) }
{
    let rec = bet_record(b);
    let place = RECORD_BYTES * i;
    paste(&mut row[place..], &rec);
}

// The first records of those lent, put in the row in their order.
fn copy_bets(bets: &[Bet], count: usize, row: &mut [u8])
    requires { (count ≤ length bets.now) × (record_length * count ≤ length row.old) }
    ensures { row.new ≡ written row.old 0 (row_of count bets.now) }
{
    for i in 0..count {
        put_bet(row, i, bets[i]);
    }
}

// Room for the bytes of the most records.
fn row_room() -> [u8; ROW_BYTES]
    ensures { result ≡ zeros row_length }
{
    [0u8; ROW_BYTES]
}

// A limit tried on the first records of a row of bytes; margins are written as numbers.
fn try_row(
    index: &[u8],
    row: &[u8],
    count: usize,
    k: u32,
    limit: u32,
    taken: &mut [u8],
    margins: &mut [i64],
) -> Result<u32, Refusal>
    requires { record_length * count ≤ length row.now }
    ensures { RowGives index.now row.now count k limit taken.old margins.old result taken.new margins.new }
{
    let mut work = room();
    let opened = Index::open(index, &mut work)?;
    let size = COLUMNS * opened.m;
    let len = RECORD_BYTES * count;
    try_of(
        opened,
        &row[..len],
        k as usize,
        limit as usize,
        taken,
        margins,
        &mut work[..size],
    )
}

// A limit tried on the records lent: the first of them are copied into a row of bytes, on which it is tried.
pub fn try_limit(
    index: &[u8],
    bets: &[Bet],
    k: u32,
    limit: u32,
    taken: &mut [u8],
    margins: &mut [i64],
) -> Result<u32, Refusal>
    ensures { LimitGives index.now bets.now k limit taken.old margins.old result taken.new margins.new }
{
    let count = bets.len().min(MOST_BETS);
    let mut row = row_room();
    copy_bets(bets, count, &mut row);
    try_row(index, &row, count, k, limit, taken, margins)
}
