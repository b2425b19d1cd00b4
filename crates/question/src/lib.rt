// The seven questions on the bytes of an index. A question is checked as 13, 7, 8, 9, 10, 11, 12, those that apply; refused, it leaves every lent byte. What is said of
// an index here is what its bytes mean; nothing is known of how it was built.
#![tactic(auto)]

pub mod answer;
mod checks;
mod links;
mod lists;
mod named;
mod ways;
