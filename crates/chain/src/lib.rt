// Question G: the shortest chain of triangles of weight at least k between two links of an index. The links of strength at least k go into the work space; a
// breadth-first search from the second link gives each link that is no farther than the first one its distance and its first triangle; the chain is read off from
// the first link.
#![tactic(auto)]

pub mod between;
mod load;
mod search;
mod write;
