// The unresolved decisions of a plan, by cut and edge.
ghost use Rattle.std.specs.Prelude.{◌≡◌, [], ◌∷◌, ◌++◌, map, ℕ, ◌+◌, ◌<◌, ◌≤◌, length};
ghost use Rattle.sets.specs.paper.Sets.{has, below, All};
ghost use Rattle.records.specs.paper.Plan.{Plan as Paper};
ghost use Rattle.records.specs.code.Decoded.{decisions_of, plan_of, cuts_of, edges_of};
ghost use Rattle.records.specs.promises.Sound.{Sound};
ghost use Rattle.expressions.specs.code.Coded.{Holds, EndsFit};
ghost use Rattle.expressions.specs.paper.Influence.{has_verdict, open_in, open_below, open_decisions, decision_count, open_touch, decision_touch};
ghost use Rattle.expressions.specs.code.Undecided.{pair_of, opens_of, Named};

use crate::observations::with_number;
use crate::rules::ends;
use records::plan::{Cuts, Decisions, Edges, Plan};
use sets::{contains, union};

#[derive(Clone, Copy)]
pub struct Undecided {
    pub count: usize,
    pub cuts: [u8; 16],
    pub edges: [u8; 16],
}

// The edges below 64 on which this verdict (1 blocked, 2 overrides, 3 unresolved) is given.
pub fn edges_with(decisions: Decisions, verdict: u8) -> u64
    requires { 0 < verdict }
    ensures { (e : ℕ) → e < 64 → has result e ≡ has_verdict e verdict (decisions_of decisions) }
{
    let mut m = 0;
    for i in 0..usize::from(decisions.count).min(64) {
        m = with_number(m, decisions.edges[i], decisions.verdicts[i] == verdict);
    }
    m
}

// One decision more, on an edge of a cut.
#[tactic(auto, using(crate::proofs::DecisionLaws::open_next), unfolding(crate::specs::code::Undecided::opens_of))]
fn push(found: &mut Undecided, cut: u8, edge: u8)
    requires { found.old.count < 16 }
    ensures { opens_of found.new ≡ opens_of found.old ++ (pair_of cut edge ∷ []) }
{
    let at = found.count;
    found.cuts[at] = cut;
    found.edges[at] = edge;
    found.count = at + 1;
}

// The unresolved decisions of the cut c, on edges below the count.
fn open_in(found: Undecided, decisions: Decisions, c: u8, edges: usize) -> Undecided
    requires { (edges ≤ 64) × (found.count + length (open_in (decisions_of decisions) c edges) ≤ 16) }
    ensures { opens_of result ≡ opens_of found ++ open_in (decisions_of decisions) c edges }
{
    let unresolved = edges_with(decisions, 3);
    let mut out = found;
    for e in 0..edges {
        if contains(unresolved, e as u8) {
            push(&mut out, c, e as u8);
        }
    }
    out
}

fn open_over(cuts: Cuts, edges: usize) -> Undecided
    requires { (edges ≤ 64) × (length (open_below (cuts_of cuts) edges (length (cuts_of cuts))) ≤ 16) }
    ensures { opens_of result ≡ open_below (cuts_of cuts) edges (length (cuts_of cuts)) }
{
    let mut out = Undecided {
        count: 0,
        cuts: [0; 16],
        edges: [0; 16],
    };
    for i in 0..cuts.count.min(16) {
        out = open_in(out, cuts.items[i].decisions, i as u8, edges);
    }
    out
}

// All unresolved decisions, by cut and edge.
pub fn open_decisions(plan: Plan) -> Undecided
    requires { Sound (plan_of plan) }
    ensures { opens_of result ≡ open_decisions (plan_of plan) }
{
    open_over(plan.cuts, plan.edges.count.min(64))
}

// Whom each decision touches: the cut's members and the edge's ends.
fn touches_over(cuts: Cuts, edges: Edges, found: Undecided) -> [u64; 16]
    requires { (found.count ≤ 16) × All (Named (length (cuts_of cuts)) (length (edges_of edges))) (opens_of found) × All EndsFit (edges_of edges) }
    ensures { (P : Paper) → P.cuts ≡ cuts_of cuts → P.edges ≡ edges_of edges → Holds 0 result (map (open_touch P) (opens_of found)) }
{
    let mut out = [0u64; 16];
    for i in 0..found.count {
        let cut = cuts.items[usize::from(found.cuts[i])];
        let edge = edges.items[usize::from(found.edges[i])];
        out[i] = union(cut.members, ends(edge));
    }
    out
}

// Whom each unresolved decision touches.
pub fn decision_touches(plan: Plan, found: Undecided) -> [u64; 16]
    requires { Sound (plan_of plan) × (opens_of found ≡ open_decisions (plan_of plan)) }
    ensures { Holds 0 result (below (decision_count (plan_of plan)) (decision_touch (plan_of plan))) }
{
    touches_over(plan.cuts, plan.edges, found)
}
