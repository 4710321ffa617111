// Bytes to plan and case.
#![tactic(auto)]

pub mod case;
pub mod checked;
pub mod fields;
pub mod plan;
