// Runs `strengths` on small cards and prints, for each, the strengths of its links and the look-ups of the first count.
#![tactic(auto)]

ghost use Rattle.std.specs.Prelude.{◌≡◌, true, ◌*◌, ◌<◌, ◌≤◌, length};
ghost use Rattle.columns.specs.Columns.{COLUMNS};
ghost use Rattle.strengths_run.specs.Keys.{Good, Rising, most_small};

use columns::{COLUMNS, HALF, KEY, STRENGTH, get, put};
use std::io;
use strength::strengths;

// Column KEY from pairs of digits, three bytes to a pair.
fn fill(w: &mut [u32], m: usize, pairs: &[u8])
    requires w_len { length w.old ≡ COLUMNS * m }
    requires m_in_bounds { 3 * m ≤ length pairs.now }
    requires m_le_most_small { m ≤ most_small }
{
    for i in 0..m {
        let a = (pairs[3 * i] % 16) as usize;
        let b = (pairs[3 * i + 1] % 16) as usize;
        put(w, m, KEY, i, a * HALF + b);
    }
}

// Link i has its lower account first, its accounts are below n, and it comes after the link before it.
fn good(w: &[u32], m: usize, n: usize, i: usize) -> bool
    requires w_len { length w.now ≡ COLUMNS * m }
    requires i_lt_m { i < m }
    ensures { result ≡ true → Good m n i w.now }
{
    let k = get(w, m, KEY, i);
    k / HALF < k % HALF && k % HALF < n && (i == 0 || get(w, m, KEY, i - 1) < k)
}

// All links are so.
fn rising(w: &[u32], m: usize, n: usize) -> bool
    requires w_len { length w.now ≡ COLUMNS * m }
    requires m_le_most_small { m ≤ most_small }
    ensures { result ≡ true → Rising m n m w.now }
{
    for i in 0..m {
        if !good(w, m, n, i) {
            return false;
        }
    }
    true
}

fn print_strengths(rt: &impl Print, w: &[u32], m: usize) -> io::Result<()>
    requires w_len { length w.now ≡ COLUMNS * m }
    requires m_le_most_small { m ≤ most_small }
{
    for i in 0..m {
        let strength = get(w, m, STRENGTH, i);
        print!(rt; "{strength} ")?;
    }
    Ok(())
}

fn run(rt: &impl Print, w: &mut [u32], m: usize, n: usize, pairs: &[u8]) -> io::Result<()>
    requires w_len { length w.old ≡ COLUMNS * m }
    requires m_in_bounds { 3 * m ≤ length pairs.now }
    requires m_le_most_small { m ≤ most_small }
    requires n_le_most_small { n ≤ most_small }
{
    fill(w, m, pairs);
    if rising(w, m, n) {
        let lookups = strengths(w, m, n);
        print_strengths(rt, w, m)?;
        println!(rt; "look-ups {lookups}")?;
    }
    Ok(())
}

// The cards here are small: so many accounts and links at most.
const SMALL: usize = 64;

const WORK: usize = COLUMNS * SMALL;

fn room() -> [u32; WORK] {
    [0u32; WORK]
}

fn show(rt: &impl Print, pairs: &[u8], n: usize) -> io::Result<()> {
    let m = pairs.len() / 3;
    if SMALL < m || SMALL < n {
        return Ok(());
    }
    let mut work = room();
    run(rt, &mut work[..COLUMNS * m], m, n, pairs)
}

fn main(rt: HostRuntime) -> io::Result<()> {
    // card A, card B, two triangles that share an account, all pairs of five, a strip, card B with a pendant link
    show(&rt, b"01 02 12 13 23 34 ", 5)?;
    show(&rt, b"01 02 03 12 13 23 24 34 35 36 45 46 56 ", 7)?;
    show(&rt, b"01 02 12 23 24 34 ", 5)?;
    show(&rt, b"01 02 03 04 12 13 14 23 24 34 ", 5)?;
    show(&rt, b"01 02 12 13 23 24 34 35 45 46 56 ", 7)?;
    show(&rt, b"01 02 03 12 13 23 24 34 35 36 45 46 56 67 ", 8)
}
