// Refusal 6 of a plan: a cut and a Combination edge that cross without a decision.
ghost use Rattle.std.specs.Prelude.{◌≡◌, ℕ, ◌<◌, ◌≤◌};
ghost use Rattle.records.specs.paper.Fields.{fine, first_fault};
ghost use Rattle.records.specs.paper.Plan.{decided_in, cuts_at};
ghost use Rattle.records.specs.code.Decoded.{plan_of, decisions_of};
ghost use Rattle.records.specs.code.Check.{checked_of};
ghost use Rattle.records.specs.code.Crossings.{IsOpen, first_crossing, crossing_faults};

use crate::checked::Checked;
use crate::plan::checks::naming::entry;
use crate::plan::counts::{Counts, count_records};
use crate::plan::{Cut, Decisions, Edge, Plan};
use sets::persons::has_person;

#[derive(Drop)]
pub enum Crossing {
    At { cut: usize, edge: usize },
    Nowhere,
}

pub fn decided(decisions: Decisions, edge: usize) -> bool
    ensures { result ≡ decided_in (decisions_of decisions) edge }
{
    let list = decisions.edges;
    let count = usize::from(decisions.count);
    for i in 0..count {
        if usize::from(entry(list, i)) == edge {
            return true;
        }
    }
    false
}

// Whether the edge of this number crosses a cut of these members, with one end in it, and is not decided.
pub fn undecided(members: u64, decisions: Decisions, number: usize, edge: Edge) -> bool
    ensures { IsOpen members decisions number edge result }
{
    if !edge.combination {
        return false;
    }
    let left = has_person(members, edge.left);
    let right = has_person(members, edge.right);
    if left == right {
        return false;
    }
    !decided(decisions, number)
}

pub fn first_crossing(plan: Plan) -> Crossing
    ensures { result ≡ first_crossing (plan_of plan) }
{
    let counts = count_records(plan);
    let cuts = plan.cuts;
    let edges = plan.edges;
    let cut_count = counts.cuts;
    let edge_count = counts.edges;
    let mut hit = false;
    let mut cut: usize = 0;
    let mut edge: usize = 0;
    'search: while cut < cut_count {
        let tested = cuts.items[cut];
        let decisions = tested.decisions;
        edge = 0;
        while edge < edge_count {
            if undecided(tested.members, decisions, edge, edges.items[edge]) {
                hit = true;
                break 'search;
            }
            edge = edge + 1;
        }
        cut = cut + 1;
    }
    if hit {
        Crossing::At {
            cut: cut,
            edge: edge,
        }
    } else {
        Crossing::Nowhere
    }
}

pub fn crossings(plan: Plan) -> Checked
    ensures { result ≡ checked_of (first_fault (cuts_at (plan_of plan)) (crossing_faults (plan_of plan)) (fine (plan_of plan))) }
{
    let counts = count_records(plan);
    let first = counts.headings + counts.facts + counts.nodes + counts.edges;
    let found = first_crossing(plan);
    match found {
        Crossing::At { cut, edge } => Checked::Refused {
            number: 6,
            record: first + cut,
        },
        Crossing::Nowhere => Checked::Accepted,
    }
}
