// A plan as it comes out of its bytes: for each kind of record a count and that many records in order.
// specs/code/Decoded.antt says which plan of document 01 a `Plan` stands for.
pub mod checks;
pub mod counts;
pub mod reading;

// Up to sixteen numbers: children, defeaters, cuts that a cut precedes.
#[derive(Clone, Copy)]
pub struct Numbers {
    pub count: u8,
    pub items: [u8; 16],
}

// A boolean fact has no family and no tuple.
#[derive(Clone, Copy)]
pub struct Fact {
    pub boolean: bool,
    pub family: u8,
    pub count: u8,
    pub tuple: [u8; 4],
}

// sort: 0 literal, 1 fact, 2 And, 3 Or, 4 Not. A literal's value, a fact's or a node's number is `number`.
#[derive(Clone, Copy)]
pub struct Node {
    pub sort: u8,
    pub number: u8,
    pub children: Numbers,
}

#[derive(Clone, Copy)]
pub struct Edge {
    pub left: u8,
    pub right: u8,
    pub condition: u8,
    pub citation: u8,
    pub defeaters: Numbers,
    pub combination: bool,
}

#[derive(Clone, Copy)]
pub struct Election {
    pub given: bool,
    pub fact: u8,
    pub actor: u8,
    pub policy: u8,
    pub citation: u8,
}

// verdicts: 1 blocked, 2 overrides, 3 unresolved
#[derive(Clone, Copy)]
pub struct Decisions {
    pub count: u8,
    pub edges: [u8; 64],
    pub verdicts: [u8; 64],
}

#[derive(Clone, Copy)]
pub struct Cut {
    pub members: u64,
    pub condition: u8,
    pub citation: u8,
    pub election: Election,
    pub decisions: Decisions,
    pub precedes: Numbers,
}

#[derive(Clone, Copy)]
pub struct Attachment {
    pub members: u64,
    pub anchor: u8,
    pub condition: u8,
    pub citation: u8,
    pub actor: u8,
    pub election: Election,
}

#[derive(Clone, Copy)]
pub struct Bar {
    pub members: u64,
    pub condition: u8,
    pub citation: u8,
}

#[derive(Clone, Copy)]
pub struct Status {
    pub person: u8,
    pub condition: u8,
    pub citation: u8,
}

#[derive(Clone, Copy)]
pub struct Facts {
    pub count: usize,
    pub items: [Fact; 64],
}

#[derive(Clone, Copy)]
pub struct Nodes {
    pub count: usize,
    pub items: [Node; 256],
}

#[derive(Clone, Copy)]
pub struct Edges {
    pub count: usize,
    pub items: [Edge; 64],
}

#[derive(Clone, Copy)]
pub struct Cuts {
    pub count: usize,
    pub items: [Cut; 16],
}

#[derive(Clone, Copy)]
pub struct Attachments {
    pub count: usize,
    pub items: [Attachment; 32],
}

#[derive(Clone, Copy)]
pub struct Bars {
    pub count: usize,
    pub items: [Bar; 32],
}

#[derive(Clone, Copy)]
pub struct Statuses {
    pub count: usize,
    pub items: [Status; 32],
}

// `headings` is 1 once the heading is read; `chained` says whether there is a base-chain citation.
#[derive(Clone, Copy)]
pub struct Plan {
    pub headings: usize,
    pub relation: u8,
    pub chained: bool,
    pub chain: u8,
    pub facts: Facts,
    pub nodes: Nodes,
    pub edges: Edges,
    pub cuts: Cuts,
    pub attachments: Attachments,
    pub bars: Bars,
    pub statuses: Statuses,
}
