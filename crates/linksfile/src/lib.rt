// Links files: the checks of document 01 in their order, and the keys of the pairs, sorted, in the work space.
#![tactic(auto)]

ghost use Rattle.std.specs.Prelude.{◌≡◌, ◌+◌, ◌*◌, ◌<◌};
ghost use Rattle.std.proofs.Math.Option.{some};
ghost use Rattle.truss.specs.Record.{body_length};
ghost use Rattle.truss.specs.Graph.{link};
ghost use Rattle.truss.specs.LinksFile.{read_head};
ghost use Rattle.wire.specs.Wire.{place_bound};
ghost use Rattle.limits.specs.Refusals.{checked_in};
ghost use Rattle.linksfile.specs.Records.{end_at, key_of, record_at};
ghost use Rattle.linksfile.specs.Load.{ScanAsks, Scanned, LoadAsks, LoadGives};
ghost use Rattle.linksfile.specs.Leaves.{FileOnly, ScanLeaves, LoadClears};
ghost use Rattle.linksfile.specs.Answers.{head_of, plain_of};

use columns::{HALF, KEY, put, wipe};
use limits::refusal::{Fault, Refusal};
use limits::{MOST_ACCOUNTS, MOST_LINKS};
use sorting::{FILE, ROW, sort};
use wire::{END, PLAIN_LINK, field_at, whole_record};

// What a head says: how many accounts and links.
#[derive(Clone, Copy)]
pub struct Head {
    pub n: usize,
    pub m: usize,
}

// How many records have no fault by themselves, and what the scan found after them.
#[derive(Clone, Copy)]
struct Stopped {
    count: usize,
    rest: Result<(), Fault>,
}

// The checks of a head, of the kind with which the file begins: 1, 2, 3.
pub fn read_head(s: &[u8], kind: u8) -> Result<Head, Refusal>
    requires { body_length kind ≡ some 4 }
    ensures { head_of result ≡ read_head kind s.now }
{
    if !whole_record(s, 0, kind) {
        return Err(Refusal::Record);
    }
    let n = field_at(s, 1);
    if n == 0 {
        return Err(Refusal::Accounts);
    }
    if MOST_ACCOUNTS < n {
        return Err(Refusal::Accounts);
    }
    let m = field_at(s, 3);
    if MOST_LINKS < m {
        return Err(Refusal::Links);
    }
    Ok(Head { n, m })
}

// A pair as one number, the lower account first.
pub fn key_of(a: usize, b: usize) -> usize
    requires a_bound { a < 65536 }
    requires b_bound { b < 65536 }
    ensures { result ≡ key_of (link a b) }
{
    if a < b { a * HALF + b } else { b * HALF + a }
}

// The key of one record's link, or the refusal that the record meets by itself: 1, 4, 5.
fn read_link(s: &[u8], at: usize, n: usize) -> Result<usize, Refusal>
    requires { at < place_bound }
    ensures { plain_of result at ≡ record_at s.now n at }
{
    if !whole_record(s, at, PLAIN_LINK) {
        return Err(Refusal::Record);
    }
    let a = field_at(s, at + 1);
    let b = field_at(s, at + 3);
    if n <= a {
        return Err(Refusal::Beyond);
    }
    if n <= b {
        return Err(Refusal::Beyond);
    }
    if a == b {
        return Err(Refusal::EqualEnds);
    }
    Ok(key_of(a, b))
}

// The end record and nothing after it.
fn ending(s: &[u8], at: usize) -> Result<(), Fault>
    requires { at < place_bound }
    ensures { checked_in result ≡ end_at s.now at }
{
    if !whole_record(s, at, END) {
        return Err(Fault {
            refusal: Refusal::Record,
            place: at as u32,
        });
    }
    if at + 1 != s.len() {
        return Err(Fault {
            refusal: Refusal::Record,
            place: (at + 1) as u32,
        });
    }
    Ok(())
}

// The keys of the records in file order, up to the first that has a fault by itself.
fn scan(s: &[u8], n: usize, m: usize, w: &mut [u32]) -> Stopped
    requires { ScanAsks m n w.old }
    ensures scanned { Scanned s.now n m result.count (checked_in result.rest) w.new }
    ensures file_only { FileOnly m w.old w.new }
{
    for i in 0..m {
        let at = 5 + 5 * i;
        match read_link(s, at, n) {
            Ok(k) => put(w, m, FILE, i, k),
            Err(refusal) => {
                return Stopped {
                    count: i,
                    rest: Err(Fault {
                        refusal,
                        place: at as u32,
                    }),
                };
            }
        }
    }
    Stopped {
        count: m,
        rest: ending(s, 5 + 5 * m),
    }
}

// The first fault of 1, 4, 5, 6 in file order, or the keys, sorted, in column KEY.
fn scan_sorted(s: &[u8], n: usize, m: usize, w: &mut [u32]) -> Result<(), Fault>
    requires { LoadAsks s.now n m w.old }
    ensures load_gives { LoadGives s.now n m (checked_in result) w.new }
    ensures scan_leaves { ScanLeaves m w.old w.new }
{
    let stopped = scan(s, n, m, w);
    let best = sort(w, m, n, stopped.count);
    if best < stopped.count {
        return Err(Fault {
            refusal: Refusal::Repeated,
            place: (5 + 5 * best) as u32,
        });
    }
    stopped.rest
}

// The records of a file whose head is good: the first fault of 1, 4, 5, 6 in file order, or the keys, sorted, in column KEY, which is 0 where there is a
// fault. The columns that the sort uses are 0 afterwards, and all others stay.
pub fn load(s: &[u8], n: usize, m: usize, w: &mut [u32]) -> Result<(), Fault>
    requires { LoadAsks s.now n m w.old }
    ensures { LoadClears s.now n m (checked_in result) w.old w.new }
{
    let loaded = scan_sorted(s, n, m, w);
    wipe(w, m, ROW);
    wipe(w, m, FILE);
    if loaded.is_err() {
        wipe(w, m, KEY);
    }
    loaded
}
