// Nodes: one record from its bit map on, and the pass over all of them.
ghost use Rattle.std.specs.Prelude.{◌≡◌, [], ◌≤◌, ◌+◌, length};
ghost use Rattle.records.specs.paper.Fields.{single};
ghost use Rattle.records.specs.paper.Plan as paper;
ghost use Rattle.records.specs.code.Decoded as decoded;
ghost use Rattle.records.specs.code.Readers.{map_read};
ghost use Rattle.records.specs.code.Passes.{raw_of, with_bits, Passed};
ghost use Rattle.records.specs.code.PlanPasses.{plan_reading, node_seen, node_read, node_fits, node_answer_fits, with_nodes};
ghost use Rattle.records.specs.code.Decoded.{nodes_of};

use crate::fields::judge::judged;
use crate::fields::lists::numbers_from;
use crate::fields::passing::{Passing, refused};
use crate::fields::{Field, Listed, byte_at, list_at, opt_at};
use crate::plan::{Node, Nodes, Numbers};

// The fields of a node, each 0 without its bit; where the children of And and of Or stand, and how many there are.
#[derive(Drop)]
pub struct NodeFields {
    pub literal: u8,
    pub fact: u8,
    pub ands: usize,
    pub conjuncts: u8,
    pub ors: usize,
    pub disjuncts: u8,
    pub negated: u8,
}

// The bits, the fields, and the place after them.
#[derive(Drop)]
pub enum NodeSeen {
    Got(u8, NodeFields, usize),
    Bad,
}

pub fn node_at(s: &[u8], at: usize) -> NodeSeen
    ensures { (node_read s.now result ≡ map_read (with_bits paper.node_from) (raw_of paper.plan_formats 3 s.now at)) × node_answer_fits s.now result }
{
    let Field::Got(bits, p) = byte_at(s, at, 0, 255) else {
        return NodeSeen::Bad;
    };
    let Field::Got(literal, p0) = opt_at(s, p, bits % 2 == 1, 0, 1) else {
        return NodeSeen::Bad;
    };
    let Field::Got(fact, p1) = opt_at(s, p0, bits / 2 % 2 == 1, 0, 255) else {
        return NodeSeen::Bad;
    };
    let Listed::Got(ands, conjuncts, p2) = list_at(s, p1, bits / 4 % 2 == 1, 16, 255) else {
        return NodeSeen::Bad;
    };
    let Listed::Got(ors, disjuncts, p3) = list_at(s, p2, bits / 8 % 2 == 1, 16, 255) else {
        return NodeSeen::Bad;
    };
    let Field::Got(negated, next) = opt_at(s, p3, bits / 16 % 2 == 1, 0, 255) else {
        return NodeSeen::Bad;
    };
    if bits / 32 == 0 {
        let fields = NodeFields {
            literal: literal,
            fact: fact,
            ands: ands,
            conjuncts: conjuncts,
            ors: ors,
            disjuncts: disjuncts,
            negated: negated,
        };
        return NodeSeen::Got(bits, fields, next);
    }
    NodeSeen::Bad
}

// the node that the lowest bit says
fn node_from(s: &[u8], bits: u8, fields: NodeFields) -> Node
    requires { node_fits s.now fields }
    ensures { decoded.node_of result ≡ node_seen s.now bits fields }
{
    let none = Numbers {
        count: 0,
        items: [0; 16],
    };
    if bits % 2 == 1 {
        return Node {
            sort: 0,
            number: fields.literal,
            children: none,
        };
    }
    if bits / 2 % 2 == 1 {
        return Node {
            sort: 1,
            number: fields.fact,
            children: none,
        };
    }
    if bits / 4 % 2 == 1 {
        let children = numbers_from(s, fields.ands, fields.conjuncts);
        return Node {
            sort: 2,
            number: 0,
            children: children,
        };
    }
    if bits / 8 % 2 == 1 {
        let children = numbers_from(s, fields.ors, fields.disjuncts);
        return Node {
            sort: 3,
            number: 0,
            children: children,
        };
    }
    Node {
        sort: 4,
        number: fields.negated,
        children: none,
    }
}

fn one_bit(bits: u8) -> bool
    ensures { result ≡ single bits }
{
    u64::count_ones(u64::from(bits)) == 1
}

#[derive(Drop)]
pub struct NodesRead {
    pub next: Passing,
    pub nodes: Nodes,
}

pub fn no_nodes() -> Nodes
    ensures { (nodes_of result ≡ []) × (result.count ≡ 0) × (length result.items ≡ 256) }
{
    let none = Numbers {
        count: 0,
        items: [0; 16],
    };
    let blank = Node {
        sort: 0,
        number: 0,
        children: none,
    };
    Nodes {
        count: 0,
        items: [blank; 256],
    }
}

pub fn read_nodes(s: &[u8], from: Passing) -> NodesRead
    requires { from.record ≤ from.at }
    ensures { Passed plan_reading with_nodes 3 s.now from result.next (nodes_of result.nodes)
        × (result.next.record ≤ result.next.at) × (result.next.headed ≡ from.headed) }
{
    let mut nodes = no_nodes();
    let mut here = from;
    while here.at < s.len() && here.number == 0 {
        let at = here.at;
        if s[at] != 3 {
            break;
        }
        let NodeSeen::Got(bits, fields, next) = node_at(s, at + 1) else {
            return NodesRead {
                next: refused(here, 1),
                nodes: nodes,
            };
        };
        let n = nodes.count;
        here.number = judged(n, 256, one_bit(bits), from.headed);
        if here.number != 0 {
            break;
        }
        nodes.items[n] = node_from(s, bits, fields);
        nodes.count = n + 1;
        here.at = next;
        here.record = here.record + 1;
    }
    NodesRead {
        next: here,
        nodes: nodes,
    }
}
