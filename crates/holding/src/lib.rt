// Which groups hold all named accounts. Each named account has a rank, and a column of the work space for its rank: first the groups that its links name are
// marked there, then all groups above them. Column 0 keeps what all columns have; the others are 0 then.
#![tactic(auto)]

pub mod marks;
mod ranks;
