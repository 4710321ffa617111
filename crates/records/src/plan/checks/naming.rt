// Refusal 4, record by record: a number that names no record, no lower node, or no boolean fact in an election.
ghost use Rattle.std.specs.Prelude.{◌≡◌, ℕ, ◌<◌, ◌≤◌, ltb, get_or};
ghost use Rattle.sets.specs.paper.Sets.{all_of};
ghost use Rattle.records.specs.code.Decoded.{numbers_of, decisions_of};
ghost use Rattle.records.specs.code.Named.{all_under, all_decide, NodeSound, EdgeSound, BooleanFacts, ElectionSound, CutSound, AttachmentSound};

use crate::plan::counts::Counts;
use crate::plan::{Attachment, Cut, Decisions, Edge, Election, Facts, Node, Numbers};
use sets::{bit, contains, union};

pub fn all_under(n: Numbers, bound: usize) -> bool
    ensures { result ≡ all_under bound (numbers_of n) }
{
    let items = n.items;
    let count = usize::from(n.count).min(16);
    for i in 0..count {
        if usize::from(items[i]) >= bound {
            return false;
        }
    }
    true
}

pub fn node_sound(facts: usize, k: usize, node: Node) -> bool
    ensures { NodeSound facts k node result }
{
    let sort = node.sort;
    if sort == 0 {
        return true;
    }
    if sort == 1 {
        return usize::from(node.number) < facts;
    }
    if sort >= 4 {
        return usize::from(node.number) < k;
    }
    let children = node.children;
    all_under(children, k)
}

pub fn edge_sound(nodes: usize, edge: Edge) -> bool
    ensures { EdgeSound nodes edge result }
{
    if usize::from(edge.condition) >= nodes {
        return false;
    }
    let defeaters = edge.defeaters;
    all_under(defeaters, nodes)
}

// The boolean facts as a set, made once: a test of one number then takes no table of facts.
pub fn boolean_facts(facts: Facts) -> u64
    ensures { BooleanFacts facts result }
{
    let count = facts.count.min(64);
    let mut m: u64 = 0;
    for k in 0..count {
        if facts.items[k].boolean {
            m = union(m, bit(k as u8));
        }
    }
    m
}

pub fn election_sound(booleans: u64, election: Election) -> bool
    ensures { ElectionSound booleans election result }
{
    if !election.given {
        return true;
    }
    contains(booleans, election.fact)
}

// entry i of a list of decisions, 0 past its array
pub fn entry(list: [u8; 64], i: usize) -> u8
    ensures { result ≡ get_or list i 0 }
{
    if i >= 64 {
        return 0;
    }
    list[i]
}

pub fn all_decide(decisions: Decisions, edges: usize) -> bool
    ensures { result ≡ all_decide edges (decisions_of decisions) }
{
    let list = decisions.edges;
    let count = usize::from(decisions.count);
    for i in 0..count {
        if usize::from(entry(list, i)) >= edges {
            return false;
        }
    }
    true
}

pub fn cut_sound(booleans: u64, counts: Counts, cut: Cut) -> bool
    ensures { CutSound booleans counts cut result }
{
    if usize::from(cut.condition) >= counts.nodes {
        return false;
    }
    let election = cut.election;
    if !election_sound(booleans, election) {
        return false;
    }
    let decisions = cut.decisions;
    if !all_decide(decisions, counts.edges) {
        return false;
    }
    let precedes = cut.precedes;
    all_under(precedes, counts.cuts)
}

pub fn attachment_sound(booleans: u64, nodes: usize, attachment: Attachment) -> bool
    ensures { AttachmentSound booleans nodes attachment result }
{
    if usize::from(attachment.condition) >= nodes {
        return false;
    }
    let election = attachment.election;
    election_sound(booleans, election)
}
