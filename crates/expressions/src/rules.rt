// The rules of a plan in two lent lists, made once: the facts that each uses, and whom it holds.
ghost use Rattle.std.specs.Prelude.{◌≡◌, ◌≤◌, ◌<◌, ◌+◌, length};
ghost use Rattle.sets.specs.paper.Sets.{All};
ghost use Rattle.records.specs.promises.Sound.{Sound};
ghost use Rattle.records.specs.code.Decoded.{edge_of, attachment_of, plan_of};
ghost use Rattle.expressions.specs.code.Coded.{EndsFit, AnchorFits};
ghost use Rattle.expressions.specs.paper.Rules.{ends_of, with_anchor_of};
ghost use Rattle.expressions.specs.paper.Influence.{edge_used};
ghost use Rattle.expressions.specs.code.Listed.{lists, Joining, Listed, used_at, Ruled};

use crate::uses::used_by;
use records::plan::{Attachment, Bar, Cut, Edge, Plan, Status};
use sets::persons::person_mask;
use sets::union;

// The two persons of an edge.
#[tactic(auto, unfolding(records::specs::code::Decoded::edge_of))]
pub fn ends(e: Edge) -> u64
    requires { EndsFit (edge_of e) }
    ensures { result ≡ ends_of (edge_of e) }
{
    union(person_mask(e.left), person_mask(e.right))
}

// The members of an attachment, with its anchor.
#[tactic(auto, unfolding(records::specs::code::Decoded::attachment_of))]
pub fn with_anchor(a: Attachment) -> u64
    requires { AnchorFits (attachment_of a) }
    ensures { result ≡ with_anchor_of (attachment_of a) }
{
    union(a.members, person_mask(a.anchor))
}

// The facts that a node uses.
fn use_at(nodes: &[u64; 256], node: u8) -> u64
    ensures { result ≡ used_at nodes.now node }
{
    nodes[usize::from(node)]
}

// The facts of an edge's condition and defeaters.
#[tactic(auto, unfolding(records::specs::code::Decoded::edge_of))]
fn edge_use(e: Edge, nodes: &[u64; 256]) -> u64
    ensures { result ≡ edge_used (used_at nodes.now) (edge_of e) }
{
    union(use_at(nodes, e.condition), used_by(e.defeaters, nodes))
}

// The rules that these records are, behind the first `at`; `rule` says of one the facts that it uses, and whom it holds.
fn add<T: Copy, F: Fn(T) -> (u64, u64)>(
    uses: &mut [u64; 176],
    persons: &mut [u64; 176],
    at: usize,
    records: &[T],
    rule: F,
) -> usize
    requires room { at + length records.now ≤ 176 }
    requires each { All (F.pre rule) records.now }
    ensures count { result ≡ at + length records.now }
    ensures added { Ruled (F.post rule) records.now (lists at uses.old persons.old) (lists result uses.new persons.new) }
{
    for i in 0..records.len() {
        let (used, held) = rule(records[i]);
        uses[at + i] = used;
        persons[at + i] = held;
    }
    at + records.len()
}

// The rules that a closing goes by: edges, cuts, attachments with anchor, bars.
pub fn joining(
    uses: &mut [u64; 176],
    persons: &mut [u64; 176],
    plan: Plan,
    nodes: &[u64; 256],
) -> usize
    requires { Sound (plan_of plan) }
    ensures { Joining (plan_of plan) (used_at nodes.now) (lists result uses.new persons.new) }
{
    let edges = &plan.edges.items[..plan.edges.count.min(64)];
    let cuts = &plan.cuts.items[..plan.cuts.count.min(16)];
    let attachments = &plan.attachments.items[..plan.attachments.count.min(32)];
    let bars = &plan.bars.items[..plan.bars.count.min(32)];
    let of_edge = |e: Edge| (edge_use(e, nodes), ends(e));
    let of_cut = |c: Cut| (use_at(nodes, c.condition), c.members);
    let of_attachment = |a: Attachment| (use_at(nodes, a.condition), with_anchor(a));
    let of_bar = |b: Bar| (use_at(nodes, b.condition), b.members);
    let n = add(uses, persons, 0, edges, of_edge);
    let n = add(uses, persons, n, cuts, of_cut);
    let n = add(uses, persons, n, attachments, of_attachment);
    add(uses, persons, n, bars, of_bar)
}

// All rules: statuses come last.
pub fn all_rules(
    uses: &mut [u64; 176],
    persons: &mut [u64; 176],
    joined: usize,
    plan: Plan,
    nodes: &[u64; 256],
) -> usize
    requires { Sound (plan_of plan) × Joining (plan_of plan) (used_at nodes.now) (lists joined uses.old persons.old) }
    ensures { Listed (plan_of plan) (used_at nodes.now) (lists result uses.new persons.new) }
{
    let statuses = &plan.statuses.items[..plan.statuses.count.min(32)];
    let of_status = |s: Status| (use_at(nodes, s.condition), person_mask(s.person));
    add(uses, persons, joined, statuses, of_status)
}
