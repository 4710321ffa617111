// A plan out of a table of rules by RFC 4180.
#![tactic(auto)]

pub mod draft;
pub mod field;
pub mod number;
pub mod row;
pub mod rule;
pub mod word;
