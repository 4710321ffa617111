// What is made once for a case: the sets that a closing goes by, the bound facts, whom each fact touches, and the unresolved decisions with
// whom they touch.
ghost use Rattle.records.specs.promises.Sound.{Sound};
ghost use Rattle.records.specs.code.Decoded.{plan_of};
ghost use Rattle.expressions.specs.code.Coded.{frame_by, HoldsUses};
ghost use Rattle.expressions.specs.code.Reached.{Reached};

use crate::decisions::{Undecided, decision_touches, open_decisions};
use crate::groups::{Groups, groups_of};
use crate::rules::{all_rules, joining};
use crate::touch::{bound_facts, constraint_uses, touches};
use records::case::Constraints;
use records::plan::Plan;

// `count`: how many facts there are
#[derive(Clone, Copy)]
pub struct Reach {
    pub groups: Groups,
    pub bound: u64,
    pub count: usize,
    pub facts: [u64; 64],
    pub undecided: Undecided,
    pub decisions: [u64; 16],
}

// `nodes`: the facts that each node uses
pub fn reach_of(plan: Plan, nodes: &[u64; 256], roster: u64, constraints: Constraints) -> Reach
    requires { Sound (plan_of plan) × HoldsUses plan.nodes nodes.now }
    ensures { Reached (frame_by plan roster constraints) result }
{
    let mut uses = [0u64; 176];
    let mut persons = [0u64; 176];
    let joined = joining(&mut uses, &mut persons, plan, nodes);
    let groups = groups_of(&persons[..joined]);
    let rules = all_rules(&mut uses, &mut persons, joined, plan, nodes);
    let used = constraint_uses(constraints, nodes);
    let bound = bound_facts(&uses[..rules], used);
    let facts = touches(
        plan.facts,
        &uses[..rules],
        &persons[..rules],
        used,
        roster,
        bound,
    );
    let undecided = open_decisions(plan);
    let decisions = decision_touches(plan, undecided);
    Reach {
        groups,
        bound,
        count: plan.facts.count.min(64),
        facts,
        undecided,
        decisions,
    }
}
