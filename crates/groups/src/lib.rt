// The stored groups of each level, and the whole: from sorted links and strengths to the forest and the groups.
#![tactic(auto)]

mod level;
pub mod tree;
