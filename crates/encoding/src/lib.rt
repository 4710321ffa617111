// The encoder of a plan: each record put into a lent buffer behind what stands there.
#![tactic(auto)]

pub mod attachments;
pub mod bars;
pub mod bits;
pub mod cuts;
pub mod each;
pub mod edges;
pub mod elections;
pub mod facts;
pub mod heading;
pub mod lists;
pub mod made;
pub mod nodes;
pub mod statuses;

ghost use Rattle.std.specs.Prelude.{◌≡◌};
ghost use Rattle.records.specs.promises.Sound.{Sound};
ghost use Rattle.records.specs.code.Decoded.{plan_of};
ghost use Rattle.page.specs.Page.{puts};
ghost use Rattle.encoding.specs.paper.Encoded.{plan_bytes};

use crate::each::put_each;
use crate::heading::put_heading;
use records::plan::Plan;

// A PLAN AS BYTES, behind what stands there.
pub fn put_plan(out: &mut [u8], at: usize, plan: Plan) -> usize
    requires { Sound (plan_of plan) }
    ensures { record { count = result; out = out.new } ≡ puts (record { count = at; out = out.old }) (plan_bytes (plan_of plan)) }
{
    let mut next = put_heading(out, at, plan.relation, plan.chained, plan.chain);
    next = put_each(out, next, &plan.facts.items[..plan.facts.count.min(64)]);
    next = put_each(out, next, &plan.nodes.items[..plan.nodes.count.min(256)]);
    next = put_each(out, next, &plan.edges.items[..plan.edges.count.min(64)]);
    next = put_each(out, next, &plan.cuts.items[..plan.cuts.count.min(16)]);
    next = put_each(
        out,
        next,
        &plan.attachments.items[..plan.attachments.count.min(32)],
    );
    next = put_each(out, next, &plan.bars.items[..plan.bars.count.min(32)]);
    put_each(
        out,
        next,
        &plan.statuses.items[..plan.statuses.count.min(32)],
    )
}
