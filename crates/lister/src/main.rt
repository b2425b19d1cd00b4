// An index on standard input, its groups on standard output: their number, then a line for each with number, strength, parent or `-`, links (nested ones too), accounts
// held and the ends of its least link. Bytes that are no index print `refused 7`. No index is longer than 40,960 bytes, so what stands beyond the buffer makes
// no index of them.
#![tactic(auto)]

use limits::{MOST_LINKS, NO_GROUP};
use listing::rows::rows;
use std::io;
use std::io::{Read, Write};

// More than the longest index.
const ROOM: usize = 65536;

// Numbers in the rows of the most groups: no card has more groups than links.
const NUMBERS: usize = 6 * MOST_LINKS;

// The line of a group, from its row.
fn write_row<W: Write + Drop>(out: &mut W, group: usize, row: &[u32]) -> io::Result<()> {
    if row.len() < 6 {
        return Ok(());
    }
    write!(out, "{group} {}", row[0])?;
    if row[1] == NO_GROUP as u32 {
        write!(out, " -")?;
    } else {
        write!(out, " {}", row[1])?;
    }
    writeln!(out, " {} {} {} {}", row[2], row[3], row[4], row[5])
}

// The answer to an index: its groups, or the refusal's line.
fn answer<W: Write + Drop>(out: &mut W, index: &[u8], numbers: &mut [u32]) -> io::Result<()> {
    match rows(index, numbers) {
        Err(refusal) => writeln!(out, "refused {}", refusal.number()),
        Ok(written) => {
            let groups = (written / 6) as usize;
            writeln!(out, "groups {groups}")?;
            for (group, row) in numbers.chunks(6).take(groups).enumerate() {
                write_row(out, group, row)?;
            }
            Ok(())
        }
    }
}

fn main(rt: HostRuntime) -> io::Result<()> {
    let mut index = [0u8; ROOM];
    let mut rest: &mut [u8] = &mut index;
    let length = io::copy(&mut rt.reader().take(ROOM as u64), &mut rest)? as usize;
    let index = &index[..length.min(ROOM)];
    answer(&mut io::writer(&rt), index, &mut [0u32; NUMBERS])
}
