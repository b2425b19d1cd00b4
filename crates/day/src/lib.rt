// A day's records, nine bytes each: read, checked, and played against the groups at k. Plain numbers and bytes; which group holds whom stands in the rows of `pools`.
#![tactic(auto)]

pub mod check;
pub mod play;
mod record;
