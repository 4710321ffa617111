// Edges: one record from its bit map on, and the pass over all of them.
ghost use Rattle.std.specs.Prelude.{◌≡◌, [], ◌≤◌, ◌+◌, length};
ghost use Rattle.records.specs.paper.Plan as paper;
ghost use Rattle.records.specs.code.Readers.{map_read};
ghost use Rattle.records.specs.code.Passes.{raw_of, with_bits, Passed};
ghost use Rattle.records.specs.code.Decoded.{edge_of, edges_of};
ghost use Rattle.records.specs.code.PlanPasses.{plan_reading, edge_read, edge_fits, with_edges, edge_seen, edge_answer_fits};

use crate::fields::judge::judged;
use crate::fields::lists::numbers_from;
use crate::fields::passing::{Passing, refused};
use crate::fields::{CITATION, Field, Listed, PERSON, byte_at, list_at, opt_at};
use crate::plan::{Edge, Edges, Numbers};

// The fields of an edge; `first` and `count`: where the defeaters stand, and how many there are.
#[derive(Drop)]
pub struct EdgeFields {
    pub left: u8,
    pub right: u8,
    pub condition: u8,
    pub citation: u8,
    pub first: usize,
    pub count: u8,
}

// The bits, the fields, and the place after them.
#[derive(Drop)]
pub enum EdgeSeen {
    Got(u8, EdgeFields, usize),
    Bad,
}

pub fn edge_at(s: &[u8], at: usize) -> EdgeSeen
    ensures { (edge_read s.now result ≡ map_read (with_bits paper.edge_from) (raw_of paper.plan_formats 4 s.now at)) × edge_answer_fits s.now result }
{
    let Field::Got(bits, p) = byte_at(s, at, 0, 255) else {
        return EdgeSeen::Bad;
    };
    let Field::Got(left, p0) = opt_at(s, p, bits % 2 == 1, 0, PERSON) else {
        return EdgeSeen::Bad;
    };
    let Field::Got(right, p1) = opt_at(s, p0, bits / 2 % 2 == 1, 0, PERSON) else {
        return EdgeSeen::Bad;
    };
    let Field::Got(condition, p2) = opt_at(s, p1, bits / 4 % 2 == 1, 0, 255) else {
        return EdgeSeen::Bad;
    };
    let Field::Got(citation, p3) = opt_at(s, p2, bits / 8 % 2 == 1, 0, CITATION) else {
        return EdgeSeen::Bad;
    };
    let Listed::Got(first, count, next) = list_at(s, p3, bits / 16 % 2 == 1, 16, 255) else {
        return EdgeSeen::Bad;
    };
    if bits / 64 == 0 {
        let fields = EdgeFields {
            left: left,
            right: right,
            condition: condition,
            citation: citation,
            first: first,
            count: count,
        };
        return EdgeSeen::Got(bits, fields, next);
    }
    EdgeSeen::Bad
}

fn edge_from(s: &[u8], bits: u8, fields: EdgeFields) -> Edge
    requires { edge_fits s.now fields }
    ensures { edge_of result ≡ edge_seen s.now bits fields }
{
    let defeaters = numbers_from(s, fields.first, fields.count);
    Edge {
        left: fields.left,
        right: fields.right,
        condition: fields.condition,
        citation: fields.citation,
        defeaters: defeaters,
        combination: bits / 32 % 2 == 1,
    }
}

#[derive(Drop)]
pub struct EdgesRead {
    pub next: Passing,
    pub edges: Edges,
}

pub fn no_edges() -> Edges
    ensures { (edges_of result ≡ []) × (result.count ≡ 0) × (length result.items ≡ 64) }
{
    let none = Numbers {
        count: 0,
        items: [0; 16],
    };
    let blank = Edge {
        left: 0,
        right: 0,
        condition: 0,
        citation: 0,
        defeaters: none,
        combination: false,
    };
    Edges {
        count: 0,
        items: [blank; 64],
    }
}

pub fn read_edges(s: &[u8], from: Passing) -> EdgesRead
    requires { from.record ≤ from.at }
    ensures { Passed plan_reading with_edges 4 s.now from result.next (edges_of result.edges)
        × (result.next.record ≤ result.next.at) × (result.next.headed ≡ from.headed) }
{
    let mut edges = no_edges();
    let mut here = from;
    while here.at < s.len() && here.number == 0 {
        let at = here.at;
        if s[at] != 4 {
            break;
        }
        let EdgeSeen::Got(bits, fields, next) = edge_at(s, at + 1) else {
            return EdgesRead {
                next: refused(here, 1),
                edges: edges,
            };
        };
        let n = edges.count;
        here.number = judged(n, 64, bits & 15 == 15, from.headed);
        if here.number != 0 {
            break;
        }
        edges.items[n] = edge_from(s, bits, fields);
        edges.count = n + 1;
        here.at = next;
        here.record = here.record + 1;
    }
    EdgesRead {
        next: here,
        edges: edges,
    }
}
