// The records of a row, nine bytes each: the kind (0 a bet, else a new limit), the account, the stake or limit.
ghost use Rattle.std.specs.Prelude.{◌≡◌, ◌+◌, ◌*◌, ◌≤◌, length};
ghost use Rattle.truss.specs.Limits.{record_length};
ghost use Rattle.truss.specs.Bets.{record_at, wide_at};
ghost use Rattle.day.specs.Records.{InRow, day_record};

use limits::RECORD_BYTES;

// A record: a bet of a stake on an account, or a new limit from then on.
#[derive(Clone, Copy)]
pub enum Record {
    Bet { account: u32, stake: u32 },
    Limit(u32),
}

// The number in four bytes, high byte first.
fn wide_at(s: &[u8], at: usize) -> u32
    requires { at + 4 ≤ length s.now }
    ensures { result ≡ wide_at s.now at }
{
    u32::from_be_bytes([s[at], s[at + 1], s[at + 2], s[at + 3]])
}

// Record i of a row.
pub fn record_at(s: &[u8], i: usize) -> Record
    requires { InRow s.now i }
    ensures { day_record result ≡ record_at s.now (i * record_length) }
{
    let at = i * RECORD_BYTES;
    let amount = wide_at(s, at + 5);
    if s[at] != 0 {
        return Record::Limit(amount);
    }
    Record::Bet {
        account: wide_at(s, at + 1),
        stake: amount,
    }
}
