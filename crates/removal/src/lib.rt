// One link is removed: the triangles that are left on it are taken off the supports of their other links.
#![tactic(auto)]

pub mod centre;
mod marks;
pub mod queue;
pub mod remove;
