// The checks of a day: 10, 16, 15 for the opening limit, then by record 9, 15.
ghost use Rattle.std.specs.Prelude.{◌≡◌, ◌/◌, ◌≤◌, length};
ghost use Rattle.truss.specs.Limits.{max_records, record_length};
ghost use Rattle.truss.specs.Bets.{records_in};
ghost use Rattle.day.specs.Records.{day_record};
ghost use Rattle.day.specs.Checks.{day_fault, fault_number, first_fault, record_fault};

use crate::record::{Record, record_at};
use limits::refusal::Refusal;
use limits::{LEAST_STAKE, MOST_LIMIT, MOST_RECORDS, MOST_STAKE, RECORD_BYTES, bad_level};

// 9 or 15 of a record, the first that is met.
fn record_fault(r: Record, n: usize) -> Result<(), Refusal>
    ensures { fault_number result ≡ record_fault n (day_record r) }
{
    match r {
        Record::Bet { account, stake } => {
            let stake = stake as usize;
            if n <= account as usize {
                return Err(Refusal::NoAccount);
            }
            if stake < LEAST_STAKE || MOST_STAKE < stake {
                return Err(Refusal::Amount);
            }
            Ok(())
        }
        Record::Limit(limit) => {
            if MOST_LIMIT < limit as usize {
                return Err(Refusal::Amount);
            }
            Ok(())
        }
    }
}

// The first fault of a row of so many records.
fn records_fault(s: &[u8], n: usize, count: usize) -> Result<(), Refusal>
    requires record_length_len { length s.now / record_length ≡ count }
    requires count_le_max_records { count ≤ max_records }
    ensures { fault_number result ≡ first_fault n (records_in s.now) }
{
    for i in 0..count {
        record_fault(record_at(s, i), n)?;
    }
    Ok(())
}

// The first fault of a day, but for 12.
pub fn day_fault(s: &[u8], n: usize, k: usize, limit: usize) -> Result<(), Refusal>
    ensures { fault_number result ≡ day_fault n k limit (records_in s.now) }
{
    if bad_level(k) {
        return Err(Refusal::NoLevel);
    }
    let count = s.len() / RECORD_BYTES;
    if MOST_RECORDS < count {
        return Err(Refusal::Records);
    }
    if MOST_LIMIT < limit {
        return Err(Refusal::Amount);
    }
    records_fault(s, n, count)
}
