// The facts that each node uses: use is textual, short cuts ignored.
ghost use Rattle.std.specs.Prelude.{◌≡◌, get_or};
ghost use Rattle.sets.specs.paper.Sets.{union_of, All};
ghost use Rattle.records.specs.code.Decoded.{numbers_of, node_of, nodes_of};
ghost use Rattle.expressions.specs.paper.Nodes.{uses};
ghost use Rattle.expressions.specs.code.Coded.{HoldsUses, FactFits};

use records::plan::{Node, Nodes, Numbers};
use sets::{bit, union};

// The facts that any of these nodes uses.
pub fn used_by(nodes: Numbers, lower: &[u64; 256]) -> u64
    ensures { result ≡ union_of (λ i. get_or lower.now i 0) (numbers_of nodes) }
{
    nodes.items[..usize::from(nodes.count).min(16)]
        .iter()
        .fold(0, |m, &k| union(m, lower[usize::from(k)]))
}

#[tactic(auto, using(crate::proofs::NodeLaws::negated), unfolding(crate::specs::paper::Nodes::uses, records::specs::code::Decoded::node_of, records::specs::code::Decoded::node_by))]
fn node_use(node: Node, lower: &[u64; 256]) -> u64
    requires { FactFits (node_of node) }
    ensures { result ≡ uses lower.now (node_of node) }
{
    match node.sort {
        0 => 0,
        1 => bit(node.number),
        2 | 3 => used_by(node.children, lower),
        _ => lower[usize::from(node.number)],
    }
}

// Every node's facts, lower numbers first.
pub fn node_uses(nodes: Nodes) -> [u64; 256]
    requires { All FactFits (nodes_of nodes) }
    ensures { HoldsUses nodes result }
{
    let mut out = [0u64; 256];
    for i in 0..nodes.count.min(256) {
        out[i] = node_use(nodes.items[i], &out);
    }
    out
}
