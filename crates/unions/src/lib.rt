// The union-find forest of the links, and one join of the forest.
#![tactic(auto)]

pub mod joins;
pub mod roots;
