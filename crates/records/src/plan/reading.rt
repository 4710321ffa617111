// A plan out of its bytes, kind after kind: the plan, or the first refusal of 1, 2, 3 and 5.
pub mod attachments;
pub mod bars;
pub mod cuts;
pub mod edges;
pub mod facts;
pub mod heading;
pub mod nodes;
pub mod statuses;

ghost use Rattle.std.specs.Prelude.{◌≡◌};
ghost use Rattle.records.specs.paper.Plan as paper;
ghost use Rattle.records.specs.code.PlanRead.{plan_read_of};

use crate::fields::passing::ended;
use crate::plan::Plan;
use crate::plan::reading::attachments::read_attachments;
use crate::plan::reading::bars::read_bars;
use crate::plan::reading::cuts::read_cuts;
use crate::plan::reading::edges::read_edges;
use crate::plan::reading::facts::read_facts;
use crate::plan::reading::heading::read_heading;
use crate::plan::reading::nodes::read_nodes;
use crate::plan::reading::statuses::read_statuses;

// number 0: the plan was read, and the record is free; else the refusal's number and record, and the plan is free
#[derive(Drop)]
pub struct PlanRead {
    pub number: u8,
    pub record: usize,
    pub plan: Plan,
}

// Each reader hands a refusal on, so that what was read after it is empty.
pub fn read_plan(s: &[u8]) -> PlanRead
    ensures { plan_read_of result ≡ paper.plan_records s.now }
{
    let h = read_heading(s);
    let f = read_facts(s, h.next);
    let n = read_nodes(s, f.next);
    let e = read_edges(s, n.next);
    let c = read_cuts(s, e.next);
    let a = read_attachments(s, c.next);
    let b = read_bars(s, a.next);
    let t = read_statuses(s, b.next);
    let end = ended(s, t.next);
    let facts = f.facts;
    let nodes = n.nodes;
    let edges = e.edges;
    let cuts = c.cuts;
    let attachments = a.attachments;
    let bars = b.bars;
    let statuses = t.statuses;
    let plan = Plan {
        headings: h.headings,
        relation: h.relation,
        chained: h.chained,
        chain: h.chain,
        facts: facts,
        nodes: nodes,
        edges: edges,
        cuts: cuts,
        attachments: attachments,
        bars: bars,
        statuses: statuses,
    };
    PlanRead {
        number: end.number,
        record: end.record,
        plan: plan,
    }
}
