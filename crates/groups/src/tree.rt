// The whole: forest and groups by falling levels.
ghost use Rattle.std.specs.Prelude.{◌≡◌, ◌*◌, ◌≤◌, length};
ghost use Rattle.columns.specs.Columns.{COLUMNS};
ghost use Rattle.groups.specs.Tree.{LevelsAsks, LevelsGives, WorkAsks, WorkGives};
ghost use Rattle.groups.specs.Whole.{Ends, Tidied, TreeAsks, TreeGives};

use crate::level::group;
use columns::{
    COLUMNS, GROUP_LEAST, GROUP_PARENT, GROUP_STRENGTH, JOIN_ENDS, JOIN_WEIGHT, NEAR, OWN_GROUP,
    QUEUE, ROOT_GROUP, STRENGTH, account_room, wipe_all, wipe_range,
};
use forest::level::{level, prepare, top};
use forest::rows::rows;
use limits::LEAST_LEVEL;

// How many joins and groups the columns hold.
#[derive(Clone, Copy)]
pub struct Sizes {
    pub joins: usize,
    pub groups: usize,
}

// All levels, by falling weight; then the links that are in no triangle, each a group of its own.
fn levels(w: &mut [u32], m: usize, n: usize, row: &[u32], mark: &mut [u32]) -> Sizes
    requires { LevelsAsks m n w.old row.now mark.old }
    ensures { LevelsGives m n result.joins result.groups w.old w.new row.now mark.old }
{
    let mut joins: usize = 0;
    let mut groups: usize = 0;
    let mut k = top(w, m);
    // A while: the next weight is read from the work space after each level, so there is no range to name.
    while LEAST_LEVEL < k {
        joins = level(w, m, n, row, mark, k, joins);
        groups = group(w, m, k, groups);
        k = top(w, m);
    }
    groups = group(w, m, LEAST_LEVEL, groups);
    Sizes { joins, groups }
}

// With account-sized memory lent.
fn work(w: &mut [u32], m: usize, n: usize, row: &mut [u32], mark: &mut [u32]) -> Sizes
    requires { WorkAsks m n w.old row.old mark.old }
    ensures { WorkGives m n result.joins result.groups w.old w.new row.old mark.old }
{
    rows(w, m, n, row);
    prepare(w, m);
    levels(w, m, n, row, mark)
}

// The unused ends of the columns of joins and groups at 0.
fn wipe_ends(w: &mut [u32], m: usize, joins: usize, groups: usize)
    requires w_len { length w.old ≡ COLUMNS * m }
    requires joins_le_m { joins ≤ m }
    requires groups_le_m { groups ≤ m }
    requires m_bound { m ≤ 65535 }
    ensures { Ends m joins groups w.old w.new }
{
    wipe_range(w, m, JOIN_ENDS, joins, m);
    wipe_range(w, m, JOIN_WEIGHT, joins, m);
    wipe_range(w, m, GROUP_STRENGTH, groups, m);
    wipe_range(w, m, GROUP_PARENT, groups, m);
    wipe_range(w, m, GROUP_LEAST, groups, m);
}

// All that is no result at 0.
fn tidy(w: &mut [u32], m: usize, joins: usize, groups: usize)
    requires w_len { length w.old ≡ COLUMNS * m }
    requires joins_le_m { joins ≤ m }
    requires groups_le_m { groups ≤ m }
    requires m_bound { m ≤ 65535 }
    ensures { Tidied m joins groups w.old w.new }
{
    wipe_ends(w, m, joins, groups);
    wipe_all(w, m, NEAR, STRENGTH);
    wipe_all(w, m, QUEUE, OWN_GROUP);
    wipe_all(w, m, ROOT_GROUP, COLUMNS);
}

// From columns KEY and STRENGTH: the forest in columns JOIN_ENDS and JOIN_WEIGHT, the groups in columns GROUP_STRENGTH to GROUP_LEAST, each
// link's own group in column OWN_GROUP; all else is 0.
pub fn tree(w: &mut [u32], m: usize, n: usize) -> Sizes
    requires { TreeAsks m n w.old }
    ensures { TreeGives m n result.joins result.groups w.old w.new }
{
    let mut row = account_room();
    let mut mark = account_room();
    let s = work(w, m, n, &mut row, &mut mark);
    tidy(w, m, s.joins, s.groups);
    s
}
