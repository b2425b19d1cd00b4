// An index back into its links file.
ghost use Rattle.std.specs.Prelude.{◌++◌, ◌≡◌, ◌+◌, ◌*◌, ◌≤◌, length};
ghost use Rattle.truss.specs.Record.{end_bytes, head_bytes, kind_head};
ghost use Rattle.wire.specs.Writing.{up_to, written};
ghost use Rattle.index.specs.Read.{ReadGives, StrongFit, back_bytes};

use crate::open::open;
use columns::room;
use limits::refusal::Refusal;
use wire::{END, HEAD, field_at, head_record, pair_record, paste};

// The pairs of the strong links as plain links, at the front of what is lent.
fn write_pairs(out: &mut [u8], s: &[u8], m: usize)
    requires strong_fit { StrongFit s.now m }
    requires m_in_bounds { m * 5 ≤ length out.old }
    ensures { out.new ≡ written out.old 0 (up_to (back_bytes s.now) m) }
{
    for i in 0..m {
        let p = 5 + 8 * i;
        let a = field_at(s, p + 1);
        let b = field_at(s, p + 3);
        let rec = pair_record(a, b);
        paste(&mut out[5 * i..], &rec);
    }
}

// The links file of an index's strong links over the front of a buffer that is long enough.
fn write_back(out: &mut [u8], s: &[u8], n: usize, m: usize)
    requires strong_fit { StrongFit s.now m }
    requires m_in_bounds { 6 + m * 5 ≤ length out.old }
    ensures { out.new ≡ written out.old 0 ((head_bytes kind_head n m ++ up_to (back_bytes s.now) m) ++ end_bytes) }
{
    let head = head_record(HEAD, n, m);
    paste(out, &head);
    write_pairs(&mut out[5..], s, m);
    let e = 5 + m * 5;
    paste(&mut out[e..], &[END]);
}

// An index back into its links file: the bytes written, or refusal 7 if the bytes are no index, and then 12. Bytes after the file stay, and all stay on a refusal.
pub fn read(index: &[u8], out: &mut [u8]) -> Result<u32, Refusal>
    ensures { ReadGives index.now out.old result out.new }
{
    let mut work = room();
    let Some(o) = open(index, &mut work) else {
        return Err(Refusal::NoIndex);
    };
    let len = 6 + o.m * 5;
    if out.len() < len {
        return Err(Refusal::NoRoom);
    }
    write_back(out, index, o.n, o.m);
    Ok(len as u32)
}
