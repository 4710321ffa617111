// What the lister prints: the table of a case's lines, or the refusal.
#![tactic(auto)]

pub mod list;
pub mod rows;
