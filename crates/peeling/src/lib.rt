// From supports to strengths, by peeling.
#![tactic(auto)]

pub mod peel;
mod rest;
mod seed;
