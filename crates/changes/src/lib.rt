// A link put in or withdrawn: from an index to the index of the altered links, in a second buffer. The index is checked, the keys of the altered links are written into
// the work space, and from there on it is a build. No tally moves: a change is no question.
#![tactic(auto)]

ghost use Rattle.std.specs.Prelude.{◌≡◌, ◌*◌, ◌≤◌, length};
ghost use Rattle.truss.specs.Limits.{max_links};
ghost use Rattle.truss.specs.Change.{put_in, withdraw};
ghost use Rattle.columns.specs.Columns.{COLUMNS};
ghost use Rattle.stored.specs.Opening.{graph};
ghost use Rattle.altering.specs.Keys.{PutAsks, TakeAsks};
ghost use Rattle.changes.specs.Calls.{ChangeGives, Alters};

use altering::{keys_with, keys_without};
use columns::{COLUMNS, room};
use index::build::finish;
use limits::MOST_LINKS;
use limits::refusal::Refusal;
use stored::find::find_link;
use stored::opened::Index;

// The index of the links with a-b, in columns of one entry more.
fn build_with(
    index: Index,
    out: &mut [u8],
    w: &mut [u32],
    a: usize,
    b: usize,
) -> Result<u32, Refusal>
    requires { PutAsks index.bytes.now index.m a b w.old }
    ensures { Alters (put_in a b) (graph index.entry) out.old result out.new }
{
    keys_with(index.bytes, w, index.m, a, b);
    finish(out, w, index.n, index.m + 1)
}

// The index of the links without a-b, which is link number at, in columns of one entry less.
fn build_without(
    index: Index,
    out: &mut [u8],
    w: &mut [u32],
    at: usize,
    a: usize,
    b: usize,
) -> Result<u32, Refusal>
    requires { TakeAsks index.bytes.now index.m at a b w.old }
    ensures { Alters (withdraw a b) (graph index.entry) out.old result out.new }
{
    keys_without(index.bytes, w, index.m, at, a, b);
    finish(out, w, index.n, index.m - 1)
}

// Link a-b put in: 9, 5, 14, 3, 12.
fn put_in_of(
    index: Index,
    out: &mut [u8],
    work: &mut [u32],
    a: usize,
    b: usize,
) -> Result<u32, Refusal>
    requires { COLUMNS * max_links ≤ length work.old }
    ensures { Alters (put_in a b) (graph index.entry) out.old result out.new }
{
    if index.n <= a {
        return Err(Refusal::NoAccount);
    }
    if index.n <= b {
        return Err(Refusal::NoAccount);
    }
    if a == b {
        return Err(Refusal::EqualEnds);
    }
    let found = find_link(index.bytes, index.m, a, b);
    if found.is_some() {
        return Err(Refusal::LinkThere);
    }
    if MOST_LINKS <= index.m {
        return Err(Refusal::Links);
    }
    let size = COLUMNS * (index.m + 1);
    build_with(index, out, &mut work[..size], a, b)
}

// Link a-b withdrawn: 9, 11, 12.
fn withdraw_of(
    index: Index,
    out: &mut [u8],
    work: &mut [u32],
    a: usize,
    b: usize,
) -> Result<u32, Refusal>
    requires { COLUMNS * max_links ≤ length work.old }
    ensures { Alters (withdraw a b) (graph index.entry) out.old result out.new }
{
    if index.n <= a {
        return Err(Refusal::NoAccount);
    }
    if index.n <= b {
        return Err(Refusal::NoAccount);
    }
    match find_link(index.bytes, index.m, a, b) {
        None => Err(Refusal::NoLink),
        Some(e) => {
            let size = COLUMNS * (index.m - 1);
            build_without(index, out, &mut work[..size], e, a, b)
        }
    }
}

// The calls on bytes share that they make room and open the index; what follows differs in what it is lent, so each says these two lines itself.

// Link a-b put in: the bytes of the altered links' index, or the first refusal of 7, 9, 5, 14, 3, 12. Bytes after the index stay, and all stay on a refusal.
pub fn put_in(index: &[u8], out: &mut [u8], a: usize, b: usize) -> Result<u32, Refusal>
    ensures { ChangeGives (put_in a b) index.now out.old result out.new }
{
    let mut work = room();
    let opened = Index::open(index, &mut work)?;
    put_in_of(opened, out, &mut work, a, b)
}

// Link a-b withdrawn: the same, with the first refusal of 7, 9, 11, 12.
pub fn withdraw(index: &[u8], out: &mut [u8], a: usize, b: usize) -> Result<u32, Refusal>
    ensures { ChangeGives (withdraw a b) index.now out.old result out.new }
{
    let mut work = room();
    let opened = Index::open(index, &mut work)?;
    withdraw_of(opened, out, &mut work, a, b)
}
