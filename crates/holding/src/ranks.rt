// Ranks of the named accounts: 1, 2, .. by first naming, so that a repeat changes nothing; 0 for every other account. (A rank is a number in lent memory and no
// Option: nothing is allocated, and 0 is what memory has when it is cleared.)
ghost use Rattle.std.specs.Prelude.{◌≡◌, ◌+◌, ◌*◌, ◌<◌, ◌≤◌, length};
ghost use Rattle.truss.specs.Limits.{max_accounts, max_named};
ghost use Rattle.columns.specs.Wiping.{Zeros};
ghost use Rattle.holding.specs.Ranks.{rank_in, rank_of};
ghost use Rattle.holding.specs.Turns.{Names, RankedOne, RankState};

use columns::zero;
use wire::field_at;

// Account v is named when d ranks are given; gives the ranks given then.
fn rank_one(ranks: &mut [u32], v: usize, d: usize) -> usize
    requires v_in_bounds { v < length ranks.old }
    requires v_lt_max_accounts { v < max_accounts }
    requires d_lt_max_named { d < max_named }
    ensures { RankedOne v d result ranks.old ranks.new }
{
    if ranks[v] != 0 {
        return d;
    }
    ranks[v] = (d + 1) as u32;
    d + 1
}

// The column of account v's marks, that of its rank, if it has one.
pub fn column_of(ranks: &[u32], v: usize) -> Option<usize>
    requires { v < length ranks.now }
    ensures { rank_of result ≡ rank_in ranks.now v }
{
    (ranks[v] as usize).checked_sub(1)
}

// The ranks of k named accounts, where there are none; gives how many there are.
fn rank_all(ranks: &mut [u32], n: usize, named: &[u8], k: usize) -> usize
    requires zeros { Zeros n ranks.old }
    requires n_in_bounds { n ≤ length ranks.old }
    requires n_le_max_accounts { n ≤ max_accounts }
    requires names { Names n k named.now }
    ensures { RankState n k result named.now ranks.new }
{
    let mut d: usize = 0;
    for j in 0..k {
        let v = field_at(named, 2 * j);
        d = rank_one(ranks, v, d);
    }
    d
}

// The same, whatever the memory held.
pub fn rank_named(ranks: &mut [u32], n: usize, named: &[u8], k: usize) -> usize
    requires n_in_bounds { n ≤ length ranks.old }
    requires n_le_max_accounts { n ≤ max_accounts }
    requires names { Names n k named.now }
    ensures { RankState n k result named.now ranks.new }
{
    zero(ranks, n);
    rank_all(ranks, n, named, k)
}
