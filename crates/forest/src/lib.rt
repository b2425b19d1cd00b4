// The forest: all joins of one weight, link by link.
#![tactic(auto)]

pub mod level;
mod marks;
pub mod rows;
mod visit;
