// A links file on standard input, its index on standard output; a refusal prints `refused`, number and place. No accepted file is longer than 10,246 bytes, and the
// first fault of a longer one lies within its first 10,247, so what stands beyond the buffer makes no difference.
#![tactic(auto)]

use std::io;
use std::io::{Read, Write};

// More than the longest file.
const ROOM: usize = 65536;

// The answer to a links file: its index, or the refusal's line.
fn answer<W: Write + Drop>(mut out: W, links: &[u8], index: &mut [u8]) -> io::Result<()> {
    let len = match index::build::build(links, index) {
        Ok(len) => len as usize,
        Err(fault) => {
            return writeln!(out, "refused {} {}", fault.refusal.number(), fault.place);
        }
    };
    if len <= index.len() {
        return out.write_all(&index[..len]);
    }
    Ok(())
}

fn main(rt: HostRuntime) -> io::Result<()> {
    let mut links = [0u8; ROOM];
    let mut rest: &mut [u8] = &mut links;
    let length = io::copy(&mut rt.reader().take(ROOM as u64), &mut rest)? as usize;
    let mut index = [0u8; ROOM];
    answer(io::writer(&rt), &links[..length.min(ROOM)], &mut index)
}
