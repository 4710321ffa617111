// What the worlds of a case share: made once, then lent. specs/code/Tables.antt says what each row stands for.

// A row for each kind of set, with an entry for each rule, cut, decision or person by number.
pub type Tables = [[u64; 64]; 21];

// of edges: the two persons
pub const PAIRS: usize = 0;
// of cuts: the members; the cuts with equal members, and those of them with lower numbers; the cuts that drop it where they are active; those
// that it overlaps, and those of them whose members come later; the Combination edges that cross it; the edges on which it says blocked; its
// unresolved decisions
pub const MEMBERS: usize = 1;

pub const TWINS: usize = 2;

pub const LOWER_TWINS: usize = 3;

pub const DROPPERS: usize = 4;

pub const CLASHING: usize = 5;

pub const LATER_CLASHING: usize = 6;

pub const CROSSING: usize = 7;

pub const SAID: usize = 8;

pub const OPEN: usize = 9;
// of unresolved decisions: the edge that each leaves open
pub const OPEN_EDGES: usize = 10;
// of attachments: the members, the anchor
pub const MOVERS: usize = 11;

pub const ANCHORS: usize = 12;
// of bars: the members; of statuses: the person
pub const BARS: usize = 13;

pub const STATUSES: usize = 14;
// of persons: how far a mark there spreads
pub const SPREAD: usize = 15;
// of rules: the citation
pub const EDGE_CITATIONS: usize = 16;

pub const CUT_CITATIONS: usize = 17;

pub const ATTACHMENT_CITATIONS: usize = 18;

pub const BAR_CITATIONS: usize = 19;

pub const STATUS_CITATIONS: usize = 20;

// What worlds note beside: at each person the component at discretion found last that has the person as its lowest; at each cut the edges that
// ever blocked it, and the later cuts that it ever overlapped.
pub type Noted = [[u64; 64]; 3];

pub const PARTS: usize = 0;

pub const BLOCKINGS: usize = 1;

pub const CLASHES: usize = 2;

// `base`: the Base edges that can mark discretion, none where there is a chain citation; attachments, bars, statuses: all of them.
#[derive(Clone, Copy)]
pub struct Common {
    pub roster: u64,
    pub base: u64,
    pub attachments: u64,
    pub bars: u64,
    pub statuses: u64,
}

// What a valuation says of the rules: which edges are frozen, which rules active, which decisions true.
#[derive(Clone, Copy)]
pub struct Active {
    pub frozen: u64,
    pub cuts: u64,
    pub attachments: u64,
    pub bars: u64,
    pub statuses: u64,
    pub decisions: u64,
}

// What a world settles by sets: the lowest persons of the components at discretion, and those of them at whom this component was not noted yet;
// the marks; the applied cuts; the attachments that were not skipped, and whom they attached; the bars that hold, and whom they bar; whom a
// status excludes.
#[derive(Clone, Copy)]
pub struct Settled {
    pub heads: u64,
    pub fresh: u64,
    pub discretion: u64,
    pub overlap: u64,
    pub applied: u64,
    pub moved: u64,
    pub attached: u64,
    pub barring: u64,
    pub barred: u64,
    pub excluded: u64,
}
