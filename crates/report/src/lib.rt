// The three operations: check a plan, answer a case, show a world.
#![tactic(auto)]

pub mod bare;
pub mod classes;
pub mod event;
pub mod finish;
pub mod fold;
pub mod free;
pub mod happened;
pub mod heading;
pub mod judge;
pub mod kinds;
pub mod known;
pub mod line;
pub mod lines;
pub mod nine;
pub mod open;
pub mod operate;
pub mod operations;
pub mod pairs;
pub mod ready;
pub mod run;
pub mod sums;
pub mod walk;

// What an operation answers; `specs/paper/Operations.antt` gives document 01's numbers for each.
#[derive(Clone, Copy)]
pub enum Answer {
    // a plan without fault
    Accepted,
    // the counts of lines, events and admissible worlds
    Answered {
        lines: usize,
        events: usize,
        worlds: u64,
    },
    // refusal number and record
    Refused {
        number: u8,
        record: usize,
    },
    // refusal 11: the count of worlds, and the most allowed
    TooManyWorlds {
        count: u64,
        most: u64,
    },
}
