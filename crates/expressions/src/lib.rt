// Conditions, bindings, variables and influence.
#![tactic(auto)]

pub mod bindable;
pub mod bindings;
pub mod circle;
pub mod decisions;
pub mod elections;
pub mod evidence;
pub mod groups;
pub mod influence;
pub mod nodes;
pub mod observations;
pub mod reach;
pub mod rules;
pub mod slots;
pub mod touch;
pub mod uses;
pub mod variables;
