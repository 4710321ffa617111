// What one vector asks for and what it expects.
use report::Answer;

// The words of the operations, their letters as base-256 digits.
const CHECK: u64 = 0x636865636b;

pub const ANSWER: u64 = 0x616e73776572;

pub const SHOW: u64 = 0x73686f77;

pub const POOL: u64 = 0x706f6f6c;

pub const IMPORT: u64 = 0x696d706f7274;

pub const LIST: u64 = 0x6c697374;

// What an operation answers, as the numbers of a line.
#[derive(Clone, Copy)]
pub struct Outcome {
    pub refusal: u64,
    pub record: u64,
    pub count: u64,
    pub most: u64,
    pub lines: u64,
    pub events: u64,
    pub worlds: u64,
}

// Where in the store each of a line's fields of bytes ends; each begins where the one before it ends.
#[derive(Clone, Copy)]
pub struct Ends {
    pub plan: usize,
    pub case: usize,
    pub lines: usize,
    pub events: usize,
    pub amounts: usize,
    pub pools: usize,
}

#[derive(Clone, Copy)]
pub struct Vector {
    pub op: u64,
    pub world: u64,
    // the lengths of the two lent buffers
    pub line_room: u64,
    pub event_room: u64,
    pub expected: Outcome,
    pub unplaced: u64,
    pub ends: Ends,
}

impl Outcome {
    pub fn new() -> Outcome {
        Outcome {
            refusal: 0,
            record: 0,
            count: 0,
            most: 0,
            lines: 0,
            events: 0,
            worlds: 0,
        }
    }

    fn refused(number: u64, record: u64) -> Outcome {
        let mut outcome = Outcome::new();
        outcome.refusal = number;
        outcome.record = record;
        outcome
    }

    fn too_many(count: u64, most: u64) -> Outcome {
        let mut outcome = Outcome::new();
        outcome.refusal = 11;
        outcome.count = count;
        outcome.most = most;
        outcome
    }

    pub fn answered(lines: u64, events: u64, worlds: u64) -> Outcome {
        let mut outcome = Outcome::new();
        outcome.lines = lines;
        outcome.events = events;
        outcome.worlds = worlds;
        outcome
    }

    pub fn of(answer: Answer) -> Outcome {
        match answer {
            Answer::Accepted => Outcome::new(),
            Answer::Answered {
                lines,
                events,
                worlds,
            } => Outcome::answered(lines as u64, events as u64, worlds),
            Answer::Refused { number, record } => Outcome::refused(number as u64, record as u64),
            Answer::TooManyWorlds { count, most } => Outcome::too_many(count, most),
        }
    }

    // The number of a field of the line.
    fn set(mut self, field: u8, n: u64) -> Outcome {
        match field {
            6 => self.refusal = n,
            7 => self.record = n,
            8 => self.count = n,
            9 => self.most = n,
            10 => self.lines = n,
            11 => self.events = n,
            _ => self.worlds = n,
        }
        self
    }
}

pub fn same(a: Outcome, b: Outcome) -> bool {
    a.refusal == b.refusal
        && a.record == b.record
        && a.count == b.count
        && a.most == b.most
        && a.lines == b.lines
        && a.events == b.events
        && a.worlds == b.worlds
}

pub fn known(op: u64) -> bool {
    op == CHECK || op == ANSWER || op == SHOW || op == POOL || op == IMPORT || op == LIST
}

// How many fields a line with this operation has.
pub fn fields(op: u64) -> u8 {
    if op == POOL {
        return 18;
    }
    15
}

impl Vector {
    pub fn new() -> Vector {
        Vector {
            op: 0,
            world: 0,
            line_room: 0,
            event_room: 0,
            expected: Outcome::new(),
            unplaced: 0,
            ends: Ends {
                plan: 0,
                case: 0,
                lines: 0,
                events: 0,
                amounts: 0,
                pools: 0,
            },
        }
    }

    // The number of a field of the line.
    pub fn set_number(mut self, field: u8, n: u64) -> Vector {
        match field {
            3 => self.world = n,
            4 => self.line_room = n,
            5 => self.event_room = n,
            17 => self.unplaced = n,
            _ => {
                let expected = self.expected;
                self.expected = expected.set(field, n);
            }
        }
        self
    }

    // Where a field of bytes ends. A line that ends with its events has no amounts and no pools.
    pub fn set_end(mut self, field: u8, at: usize) -> Vector {
        let mut ends = self.ends;
        match field {
            1 => ends.plan = at,
            2 => ends.case = at,
            13 => ends.lines = at,
            14 => {
                ends.events = at;
                ends.amounts = at;
                ends.pools = at;
            }
            15 => ends.amounts = at,
            _ => ends.pools = at,
        }
        self.ends = ends;
        self
    }
}
