// What is made of an answer's lines alone.
#![tactic(auto)]

pub mod fields;
pub mod households;
pub mod pools;
pub mod units;
