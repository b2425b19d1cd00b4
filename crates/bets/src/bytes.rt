// A limit tried from C: records and margins as bytes.
ghost use Rattle.trial.specs.Trial.{BytesGives};

use columns::{COLUMNS, room};
use limits::refusal::Refusal;
use stored::opened::Index;
use trial::try_bytes_of;

// A limit tried on a row of records: the number of margins written, or the first refusal of 7, 10, 16, 15, 9, 15, 12 with place 0. What is lent stays after the results, and all of it
// on a refusal. `try_row` ends in the other call of `trial`; a closure for that call would be longer than both.
pub fn try_bytes(
    index: &[u8],
    records: &[u8],
    k: u32,
    limit: u32,
    taken: &mut [u8],
    margins: &mut [u8],
) -> Result<u32, Refusal>
    ensures { BytesGives index.now records.now k limit taken.old margins.old result taken.new margins.new }
{
    let mut work = room();
    let opened = Index::open(index, &mut work)?;
    let size = COLUMNS * opened.m;
    try_bytes_of(
        opened,
        records,
        k as usize,
        limit as usize,
        taken,
        margins,
        &mut work[..size],
    )
}
