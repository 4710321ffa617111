// Plans made: out of a table.
#![tactic(auto)]

pub mod import;
