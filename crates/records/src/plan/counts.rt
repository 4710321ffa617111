// How many records of each kind a plan has, whatever its count fields say.
ghost use Rattle.records.specs.code.Decoded.{plan_of};
ghost use Rattle.records.specs.code.Named.{CountsOf, CountLimits};

use crate::plan::Plan;

#[derive(Clone, Copy)]
pub struct Counts {
    pub headings: usize,
    pub facts: usize,
    pub nodes: usize,
    pub edges: usize,
    pub cuts: usize,
    pub attachments: usize,
    pub bars: usize,
    pub statuses: usize,
}

pub fn count_records(plan: Plan) -> Counts
    ensures { CountsOf (plan_of plan) result × CountLimits result }
{
    Counts {
        headings: plan.headings.min(1),
        facts: plan.facts.count.min(64),
        nodes: plan.nodes.count.min(256),
        edges: plan.edges.count.min(64),
        cuts: plan.cuts.count.min(16),
        attachments: plan.attachments.count.min(32),
        bars: plan.bars.count.min(32),
        statuses: plan.statuses.count.min(32),
    }
}
