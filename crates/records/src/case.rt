// A case as it comes out of its bytes. specs/code/Decoded.antt says which case of document 01 a `Case` stands for.
pub mod naming;
pub mod reading;

// scope and segment: 0 is empty; `complete`: the roster's completeness evidence is given
#[derive(Clone, Copy)]
pub struct CaseHeading {
    pub relation: u8,
    pub scope: u8,
    pub segment: u8,
    pub segment_complete: bool,
    pub roster: u64,
    pub complete: bool,
    pub evidence: u8,
    pub most_worlds: u16,
}

#[derive(Clone, Copy)]
pub struct Family {
    pub number: u8,
    pub scope: u8,
    pub complete: bool,
    pub evidence: u8,
}

// Up to sixteen observations, each a value and its evidence.
#[derive(Clone, Copy)]
pub struct Observations {
    pub count: u8,
    pub values: [u8; 16],
    pub evidence: [u8; 16],
}

// `unknown`: explicit unknown, with its evidence
#[derive(Clone, Copy)]
pub struct Boolean {
    pub fact: u8,
    pub unknown: bool,
    pub evidence: u8,
    pub observations: Observations,
}

#[derive(Clone, Copy)]
pub struct Relation {
    pub fact: u8,
    pub value: u8,
    pub evidence: u8,
}

#[derive(Clone, Copy)]
pub struct Families {
    pub count: usize,
    pub items: [Family; 16],
}

#[derive(Clone, Copy)]
pub struct Booleans {
    pub count: usize,
    pub items: [Boolean; 64],
}

#[derive(Clone, Copy)]
pub struct Relations {
    pub count: usize,
    pub items: [Relation; 256],
}

#[derive(Clone, Copy)]
pub struct Constraints {
    pub count: usize,
    pub items: [u8; 16],
}

// `headings` is 1 once the heading is read.
#[derive(Clone, Copy)]
pub struct Case {
    pub headings: usize,
    pub heading: CaseHeading,
    pub families: Families,
    pub booleans: Booleans,
    pub relations: Relations,
    pub constraints: Constraints,
}
