// All that the worlds of a case share, made once.
ghost use Rattle.std.specs.Prelude.{◌≡◌, ℕ, ◌≤◌, ltb};
ghost use Rattle.sets.specs.paper.Sets.{has};
ghost use Rattle.records.specs.promises.Sound.{Sound};
ghost use Rattle.records.specs.code.Decoded.{plan_of};
ghost use Rattle.worlds.specs.code.Made.{Combination, SpreadLaid, CommonFor, Ready, Made};

use crate::classes::classes_of;
use crate::lay::{
    lay, lay_attachments, lay_bars, lay_cuts, lay_decisions, lay_edges, lay_statuses,
};
use crate::over::gather;
use crate::relate::{chains, direct_precedence, relate_cuts};
use crate::tables::{Common, OPEN, SPREAD, Tables};
use expressions::decisions::Undecided;
use expressions::groups::Groups;
use expressions::influence::Influence;
use records::plan::{Edges, Plan};
use sets::members::{Members, those};
use sets::minus;

// The numbers below n.
pub fn numbers_below(n: usize) -> u64
    ensures { n ≤ 64 → (i : ℕ) → has result i ≡ ltb i n }
{
    if n >= 64 { u64::MAX } else { (1u64 << n) - 1 }
}

// The Combination edges.
pub fn combination_edges(edges: Edges) -> u64
    ensures { Combination edges result }
{
    those(
        numbers_below(edges.count.min(64)),
        |i| edges.items[i].combination,
    )
}

// How far a mark at each person of the roster spreads: over influence sets, then over the rules.
pub fn lay_spread(t: &mut Tables, rules: &[u64], influence: &[u64], roster: u64)
    ensures { SpreadLaid rules.now influence.now roster t.old t.new }
{
    let by_rules = classes_of(rules);
    let by_influence = classes_of(influence);
    for p in Members(roster) {
        lay(t, SPREAD, p, gather(&by_rules, by_influence[p]));
    }
}

// What the worlds share beside the tables.
pub fn common_of(plan: Plan, roster: u64) -> Common
    requires { Sound (plan_of plan) }
    ensures { CommonFor plan roster result }
{
    let all = numbers_below(plan.edges.count.min(64));
    let base = minus(all, combination_edges(plan.edges));
    Common {
        roster,
        base: if plan.chained { 0 } else { base },
        attachments: numbers_below(plan.attachments.count.min(32)),
        bars: numbers_below(plan.bars.count.min(32)),
        statuses: numbers_below(plan.statuses.count.min(32)),
    }
}

// All tables of a case; what stood in them does not matter.
pub fn lay_tables(
    t: &mut Tables,
    plan: Plan,
    undecided: Undecided,
    groups: Groups,
    influence: Influence,
    roster: u64,
)
    requires { Ready plan undecided groups }
    ensures { Made plan influence roster t.new }
{
    t[OPEN] = [0; 64];
    lay_edges(t, plan.edges);
    lay_cuts(t, plan.cuts);
    lay_attachments(t, plan.attachments);
    lay_bars(t, plan.bars);
    lay_statuses(t, plan.statuses);
    lay_decisions(t, undecided);
    let several = plan.cuts.count.min(16);
    let all = numbers_below(several);
    let mut direct = [0; 64];
    direct_precedence(plan.cuts, &mut direct);
    let mut preceded = [0; 64];
    chains(&direct, all, several, &mut preceded);
    relate_cuts(t, &preceded, all, combination_edges(plan.edges));
    let n = groups.count.min(144);
    let k = influence.count.min(80);
    lay_spread(t, &groups.sets[..n], &influence.sets[..k], roster);
}
