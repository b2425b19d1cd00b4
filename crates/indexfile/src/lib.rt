// The index's bytes: written from the columns of a solved work space, each part straight after the part before it, and compared with them record by record.
#![tactic(auto)]

ghost use Rattle.std.specs.Prelude.{◌≡◌, refl, ℕ, List, ◌+◌, ◌*◌, ◌<◌, ◌≤◌, length, take};
ghost use Rattle.truss.specs.Index.{encode};
ghost use Rattle.columns.specs.Columns.{cell, COLUMNS};
ghost use Rattle.wire.specs.Writing.{Tells, up_to, written};
ghost use Rattle.indexfile.specs.Rows.{CellGiven, Writes, group_record, groups_from, index_in, join_record, link_record};

use columns::{
    GROUP_LEAST, GROUP_PARENT, GROUP_STRENGTH, HALF, JOIN_ENDS, JOIN_WEIGHT, KEY, OWN_GROUP,
    STRENGTH, get,
};
use wire::{END, INDEX_HEAD, group_record, head_record, join_record, link_record, paste, stands};

// The length of an index of so many links, joins and groups.
pub fn index_length(m: usize, joins: usize, groups: usize) -> usize
    requires m_bound { m ≤ 65535 }
    requires joins_bound { joins ≤ 65535 }
    requires groups_bound { groups ≤ 65535 }
    ensures { result ≡ 6 + m * 8 + joins * 6 + groups * 6 }
{
    6 + m * 8 + joins * 6 + groups * 6
}

// Where the groups of an index of so many links and joins stand.
pub fn groups_place(m: usize, joins: usize) -> usize
    requires m_bound { m ≤ 65535 }
    requires joins_bound { joins ≤ 65535 }
    ensures { result ≡ groups_from m joins }
{
    5 + 8 * m + 6 * joins
}

// Records of N bytes each, made by number: which can be made, and what they are. A trait and no closure: the check takes no `Fn` bound that names a const parameter.
trait Rows<const N: usize> {
    ghost given: { Self → ℕ → Type 0 };

    ghost rows: { Self → ℕ → List ℕ };

    fn row(&self, i: usize) -> [u8; N]
        requires { given self.now i }
        ensures { result ≡ rows self.now i };

    ghost long: { (x : Self) (i : ℕ) → length (rows x i) ≡ N };
}

// Those that the columns of a work space hold.
#[derive(Clone, Copy)]
struct Links<'a> {
    w: &'a [u32],
    m: usize,
}

#[derive(Clone, Copy)]
struct Joins<'a> {
    w: &'a [u32],
    m: usize,
}

#[derive(Clone, Copy)]
struct Groups<'a> {
    w: &'a [u32],
    m: usize,
}

impl Rows<8> for Links<'_> {
    ghost given = { λ s i. CellGiven 4 s.m i s.w.now };

    ghost rows = { λ s i. link_record s.w.now s.m i };

    fn row(&self, i: usize) -> [u8; 8] {
        let k = get(self.w, self.m, KEY, i);
        let s = get(self.w, self.m, STRENGTH, i);
        let g = get(self.w, self.m, OWN_GROUP, i);
        link_record(k / HALF, k % HALF, s, g)
    }

    ghost long = { λ x i. refl };
}

impl Rows<6> for Joins<'_> {
    ghost given = { λ s i. CellGiven 10 s.m i s.w.now };

    ghost rows = { λ s i. join_record s.w.now s.m i };

    fn row(&self, i: usize) -> [u8; 6] {
        let p = get(self.w, self.m, JOIN_ENDS, i);
        let k = get(self.w, self.m, JOIN_WEIGHT, i);
        join_record(p / HALF, p % HALF, k)
    }

    ghost long = { λ x i. refl };
}

impl Rows<6> for Groups<'_> {
    ghost given = { λ s i. CellGiven 11 s.m i s.w.now };

    ghost rows = { λ s i. group_record s.w.now s.m i };

    fn row(&self, i: usize) -> [u8; 6] {
        let k = get(self.w, self.m, GROUP_STRENGTH, i);
        let p = get(self.w, self.m, GROUP_PARENT, i);
        let e = get(self.w, self.m, GROUP_LEAST, i);
        group_record(p, k, e)
    }

    ghost long = { λ x i. refl };
}

// The first `count` records, at the front of what is lent.
fn write_rows<const N: usize, R: Rows<N>>(out: &mut [u8], count: usize, rows: &R)
    requires given { (i : ℕ) → i < count → R.given rows.now i }
    requires room { count * N ≤ length out.old }
    ensures { out.new ≡ written out.old 0 (up_to (R.rows rows.now) count) }
{
    for i in 0..count {
        paste(&mut out[i * N..], &rows.row(i));
    }
}

// Whether they stand at the front of the bytes.
fn same_rows<const N: usize, R: Rows<N>>(s: &[u8], count: usize, rows: &R) -> bool
    requires given { (i : ℕ) → i < count → R.given rows.now i }
    requires room { count * N ≤ length s.now }
    ensures { Tells result (take (count * N) s.now ≡ up_to (R.rows rows.now) count) }
{
    for i in 0..count {
        if !stands(&s[i * N..], &rows.row(i)) {
            return false;
        }
    }
    true
}

// The index over the front of a buffer that is long enough.
pub fn write_index(out: &mut [u8], w: &[u32], n: usize, m: usize, joins: usize, groups: usize)
    requires writes { Writes w.now m joins groups }
    requires groups_in_bounds { 6 + m * 8 + joins * 6 + groups * 6 ≤ length out.old }
    ensures { out.new ≡ written out.old 0 (encode (index_in w.now n m joins groups)) }
{
    let head = head_record(INDEX_HEAD, n, m);
    paste(out, &head);
    write_rows(&mut out[5..], m, &Links { w, m });
    let a = 5 + m * 8;
    write_rows(&mut out[a..], joins, &Joins { w, m });
    let b = a + joins * 6;
    write_rows(&mut out[b..], groups, &Groups { w, m });
    let e = b + groups * 6;
    paste(&mut out[e..], &[END]);
}

// Whether the bytes are the index that the columns hold.
pub fn same_index(s: &[u8], w: &[u32], n: usize, m: usize, joins: usize, groups: usize) -> bool
    requires { Writes w.now m joins groups }
    ensures { Tells result (s.now ≡ encode (index_in w.now n m joins groups)) }
{
    if s.len() != index_length(m, joins, groups) {
        return false;
    }
    let head = head_record(INDEX_HEAD, n, m);
    if !stands(s, &head) {
        return false;
    }
    if !same_rows(&s[5..], m, &Links { w, m }) {
        return false;
    }
    let a = 5 + m * 8;
    if !same_rows(&s[a..], joins, &Joins { w, m }) {
        return false;
    }
    let b = a + joins * 6;
    if !same_rows(&s[b..], groups, &Groups { w, m }) {
        return false;
    }
    let e = b + groups * 6;
    stands(&s[e..], &[END])
}
