// What the lister prints: for each stored group its strength, parent, links with nested ones, accounts held, and the ends of its least link.
#![tactic(auto)]

pub mod rows;
