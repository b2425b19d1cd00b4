// An opened index as a value, and what its bytes say of its links and groups: fields by number, the number of a pair, the climb to the group at k. These three take the bytes and just those numbers that
// their clauses speak of: that bytes are an index, or where its groups stand, is less than all that an opened one carries. The functions use the meaning
// of an index's bytes and nothing of how it was built.
#![tactic(auto)]

pub mod climb;
pub mod find;
pub mod opened;
pub mod rows;
