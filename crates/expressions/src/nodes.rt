// Conditions in a table of nodes, each valued once.
ghost use Rattle.std.specs.Prelude.{◌≡◌, false, []};
ghost use Rattle.records.specs.code.Decoded.{node_of, nodes_of};
ghost use Rattle.expressions.specs.paper.Nodes.{value as value_of, values_from};
ghost use Rattle.expressions.specs.code.Coded.{Holds};

use records::plan::{Node, Nodes};
use sets::contains;

// A node's value from the values of the nodes below it.
#[tactic(auto, using(crate::proofs::NodeLaws::negated), unfolding(crate::specs::paper::Nodes::value, records::specs::code::Decoded::node_of, records::specs::code::Decoded::node_by))]
pub fn value(node: Node, facts: u64, lower: &[bool; 256]) -> bool
    ensures { result ≡ value_of facts lower.now (node_of node) }
{
    let children = &node.children.items[..usize::from(node.children.count).min(16)];
    match node.sort {
        0 => node.number == 1,
        1 => contains(facts, node.number),
        2 => children.iter().all(|&k| lower[usize::from(k)]),
        3 => children.iter().any(|&k| lower[usize::from(k)]),
        _ => !lower[usize::from(node.number)],
    }
}

// Every node's value, lower numbers first.
pub fn values(nodes: Nodes, facts: u64) -> [bool; 256]
    ensures { Holds false result (values_from facts (nodes_of nodes) []) }
{
    let mut out = [false; 256];
    for i in 0..nodes.count.min(256) {
        out[i] = value(nodes.items[i], facts, &out);
    }
    out
}
