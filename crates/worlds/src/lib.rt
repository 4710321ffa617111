// One world: steps 1 to 8 on one valuation.
#![tactic(auto)]

pub mod active;
pub mod cite;
pub mod classes;
pub mod conditions;
pub mod cuts;
pub mod discretion;
pub mod lay;
pub mod make;
pub mod over;
pub mod relate;
pub mod settle;
pub mod tables;
pub mod values;
pub mod words;
pub mod world;
