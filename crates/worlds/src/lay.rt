// The rules of a plan laid into the tables, once a case.
ghost use Rattle.std.specs.Prelude.{◌≡◌, ℕ, ◌<◌, ◌≤◌};
ghost use Rattle.sets.specs.paper.Sets.{has, All};
ghost use Rattle.records.specs.code.Decoded.{decisions_of, edges_of, cuts_of, attachments_of, bars_of, statuses_of};
ghost use Rattle.expressions.specs.paper.Influence.{has_verdict};
ghost use Rattle.expressions.specs.code.Undecided.{opens_of};
ghost use Rattle.worlds.specs.code.Laid.{Laid, EdgesLaid, CutsLaid, AttachmentsLaid, BarsLaid, StatusesLaid, DecisionsLaid, EdgeFits, CutFits, AttachmentFits, BarFits, StatusFits, OpenFits};

use crate::tables::{
    ANCHORS, ATTACHMENT_CITATIONS, BAR_CITATIONS, BARS, CUT_CITATIONS, EDGE_CITATIONS, MEMBERS,
    MOVERS, OPEN, OPEN_EDGES, PAIRS, SAID, STATUS_CITATIONS, STATUSES, Tables,
};
use expressions::decisions::Undecided;
use expressions::rules::ends;
use records::plan::{Attachments, Bars, Cuts, Decisions, Edges, Statuses};
use sets::bit;
use sets::persons::person_mask;

// One entry of a row.
pub fn lay(t: &mut Tables, k: usize, i: usize, value: u64)
    requires { (k < 21) × (i < 64) }
    ensures { Laid k i value t.old t.new }
{
    let row = &mut t[k];
    row[i] = value;
}

pub fn lay_edges(t: &mut Tables, edges: Edges)
    requires { All EdgeFits (edges_of edges) }
    ensures { EdgesLaid edges t.old t.new }
{
    let n = edges.count.min(64);
    for i in 0..n {
        let e = edges.items[i];
        lay(t, PAIRS, i, ends(e));
        lay(t, EDGE_CITATIONS, i, bit(e.citation));
    }
}

// The edges on which blocked is decided.
fn said_blocked(decisions: Decisions) -> u64
    requires { All (λ d. d.edge < 64) (decisions_of decisions) }
    ensures { (e : ℕ) → has result e ≡ has_verdict e 1 (decisions_of decisions) }
{
    let n = usize::from(decisions.count).min(64);
    let mut found = 0;
    for i in 0..n {
        if decisions.verdicts[i] == 1 {
            found |= bit(decisions.edges[i]);
        }
    }
    found
}

pub fn lay_cuts(t: &mut Tables, cuts: Cuts)
    requires { All CutFits (cuts_of cuts) }
    ensures { CutsLaid cuts t.old t.new }
{
    let n = cuts.count.min(16);
    for i in 0..n {
        let c = cuts.items[i];
        lay(t, MEMBERS, i, c.members);
        lay(t, CUT_CITATIONS, i, bit(c.citation));
        lay(t, SAID, i, said_blocked(c.decisions));
    }
}

pub fn lay_attachments(t: &mut Tables, attachments: Attachments)
    requires { All AttachmentFits (attachments_of attachments) }
    ensures { AttachmentsLaid attachments t.old t.new }
{
    let n = attachments.count.min(32);
    for i in 0..n {
        let a = attachments.items[i];
        lay(t, MOVERS, i, a.members);
        lay(t, ANCHORS, i, person_mask(a.anchor));
        lay(t, ATTACHMENT_CITATIONS, i, bit(a.citation));
    }
}

pub fn lay_bars(t: &mut Tables, bars: Bars)
    requires { All BarFits (bars_of bars) }
    ensures { BarsLaid bars t.old t.new }
{
    let n = bars.count.min(32);
    for i in 0..n {
        let b = bars.items[i];
        lay(t, BARS, i, b.members);
        lay(t, BAR_CITATIONS, i, bit(b.citation));
    }
}

pub fn lay_statuses(t: &mut Tables, statuses: Statuses)
    requires { All StatusFits (statuses_of statuses) }
    ensures { StatusesLaid statuses t.old t.new }
{
    let n = statuses.count.min(32);
    for i in 0..n {
        let s = statuses.items[i];
        lay(t, STATUSES, i, person_mask(s.person));
        lay(t, STATUS_CITATIONS, i, bit(s.citation));
    }
}

// The unresolved decisions: the edge of each, and those of each cut, which starts with none.
pub fn lay_decisions(t: &mut Tables, undecided: Undecided)
    requires { (undecided.count ≤ 16) × All OpenFits (opens_of undecided) }
    ensures { DecisionsLaid undecided t.old t.new }
{
    for i in 0..undecided.count {
        let c = usize::from(undecided.cuts[i]);
        lay(t, OPEN_EDGES, i, bit(undecided.edges[i]));
        let before = t[OPEN][c];
        lay(t, OPEN, c, before | bit(i as u8));
    }
}
