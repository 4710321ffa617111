// Refusal 4 of a plan: kind by kind, the first record that names what is not there. `first` is the record at which the kind begins.
ghost use Rattle.std.specs.Prelude.{◌≡◌, ◌≤◌};
ghost use Rattle.records.specs.paper.Fields.{fine, first_fault};
ghost use Rattle.records.specs.paper.Plan.{naming_faults, nodes_at};
ghost use Rattle.records.specs.code.Decoded.{plan_of};
ghost use Rattle.records.specs.code.Check.{checked_of};
ghost use Rattle.records.specs.code.Named.{NodesNamed, EdgesNamed, CutsNamed, AttachmentsNamed, BarsNamed, StatusesNamed};

use crate::checked::Checked;
use crate::plan::checks::naming::{
    attachment_sound, boolean_facts, cut_sound, edge_sound, node_sound,
};
use crate::plan::counts::{Counts, count_records};
use crate::plan::{Attachments, Bars, Cuts, Edges, Nodes, Plan, Statuses};

fn node_faults(facts: usize, nodes: Nodes, first: usize) -> Checked
    requires { first ≤ 1000 }
    ensures { NodesNamed facts nodes first result }
{
    let count = nodes.count.min(256);
    for k in 0..count {
        if !node_sound(facts, k, nodes.items[k]) {
            return Checked::Refused {
                number: 4,
                record: first + k,
            };
        }
    }
    Checked::Accepted
}

fn edge_faults(nodes: usize, edges: Edges, first: usize) -> Checked
    requires { first ≤ 1000 }
    ensures { EdgesNamed nodes edges first result }
{
    let count = edges.count.min(64);
    for k in 0..count {
        if !edge_sound(nodes, edges.items[k]) {
            return Checked::Refused {
                number: 4,
                record: first + k,
            };
        }
    }
    Checked::Accepted
}

fn cut_faults(booleans: u64, counts: Counts, cuts: Cuts, first: usize) -> Checked
    requires { first ≤ 1000 }
    ensures { CutsNamed booleans counts cuts first result }
{
    let count = cuts.count.min(16);
    for k in 0..count {
        if !cut_sound(booleans, counts, cuts.items[k]) {
            return Checked::Refused {
                number: 4,
                record: first + k,
            };
        }
    }
    Checked::Accepted
}

fn attachment_faults(booleans: u64, nodes: usize, attachments: Attachments, first: usize) -> Checked
    requires { first ≤ 1000 }
    ensures { AttachmentsNamed booleans nodes attachments first result }
{
    let count = attachments.count.min(32);
    for k in 0..count {
        if !attachment_sound(booleans, nodes, attachments.items[k]) {
            return Checked::Refused {
                number: 4,
                record: first + k,
            };
        }
    }
    Checked::Accepted
}

fn bar_faults(nodes: usize, bars: Bars, first: usize) -> Checked
    requires { first ≤ 1000 }
    ensures { BarsNamed nodes bars first result }
{
    let count = bars.count.min(32);
    for k in 0..count {
        if usize::from(bars.items[k].condition) >= nodes {
            return Checked::Refused {
                number: 4,
                record: first + k,
            };
        }
    }
    Checked::Accepted
}

fn status_faults(nodes: usize, statuses: Statuses, first: usize) -> Checked
    requires { first ≤ 1000 }
    ensures { StatusesNamed nodes statuses first result }
{
    let count = statuses.count.min(32);
    for k in 0..count {
        if usize::from(statuses.items[k].condition) >= nodes {
            return Checked::Refused {
                number: 4,
                record: first + k,
            };
        }
    }
    Checked::Accepted
}

pub fn naming(plan: Plan) -> Checked
    ensures { result ≡ checked_of (first_fault (nodes_at (plan_of plan)) (naming_faults (plan_of plan)) (fine (plan_of plan))) }
{
    let facts = plan.facts;
    let booleans = boolean_facts(facts);
    let counts = count_records(plan);
    let at_nodes = counts.headings + counts.facts;
    let nodes = plan.nodes;
    let a = node_faults(counts.facts, nodes, at_nodes);
    let Checked::Accepted = a else {
        return a;
    };
    let at_edges = at_nodes + counts.nodes;
    let edges = plan.edges;
    let b = edge_faults(counts.nodes, edges, at_edges);
    let Checked::Accepted = b else {
        return b;
    };
    let at_cuts = at_edges + counts.edges;
    let cuts = plan.cuts;
    let c = cut_faults(booleans, counts, cuts, at_cuts);
    let Checked::Accepted = c else {
        return c;
    };
    let at_attachments = at_cuts + counts.cuts;
    let attachments = plan.attachments;
    let d = attachment_faults(booleans, counts.nodes, attachments, at_attachments);
    let Checked::Accepted = d else {
        return d;
    };
    let at_bars = at_attachments + counts.attachments;
    let bars = plan.bars;
    let e = bar_faults(counts.nodes, bars, at_bars);
    let Checked::Accepted = e else {
        return e;
    };
    let statuses = plan.statuses;
    status_faults(counts.nodes, statuses, at_bars + counts.bars)
}
