// The plan of a table, or the first row with a fault.
ghost use Rattle.std.specs.Prelude.{◌≡◌, [], ◌∷◌};
ghost use Rattle.records.specs.paper.Fields.{fine, refused as refused_at};
ghost use Rattle.records.specs.paper.Plan.{literal};
ghost use Rattle.records.specs.code.Decoded.{numbers_of, edge_of, nodes_of, edges_of, statuses_of, plan_of};
ghost use Rattle.records.specs.code.PlanRead.{plan_read_of};
ghost use Rattle.spreadsheet.specs.paper.Table.{drafted as drafted_plan, tabled};
ghost use Rattle.spreadsheet.specs.code.RuleSeen.{edge_seen};

use crate::rule::{Ends, Rule, Start, header, rule_at};
use records::plan::reading::PlanRead;
use records::plan::reading::attachments::no_attachments;
use records::plan::reading::bars::no_bars;
use records::plan::reading::cuts::no_cuts;
use records::plan::reading::edges::no_edges;
use records::plan::reading::facts::no_facts;
use records::plan::reading::nodes::no_nodes;
use records::plan::reading::statuses::no_statuses;
use records::plan::{Edge, Edges, Node, Nodes, Numbers, Plan, Statuses};

fn no_numbers() -> Numbers
    ensures { numbers_of result ≡ [] }
{
    Numbers {
        count: 0,
        items: [0; 16],
    }
}

// Node 0 alone, the literal 1: a condition that is always true.
fn one_node() -> Nodes
    ensures { nodes_of result ≡ literal 1 ∷ [] }
{
    let mut nodes = no_nodes();
    nodes.items[0] = Node {
        sort: 0,
        number: 1,
        children: no_numbers(),
    };
    nodes.count = 1;
    nodes
}

fn edge_from(ends: Ends) -> Edge
    ensures { edge_of result ≡ edge_seen ends }
{
    Edge {
        left: ends.left,
        right: ends.right,
        condition: 0,
        citation: ends.citation,
        defeaters: no_numbers(),
        combination: ends.combination,
    }
}

fn drafted(edges: Edges, statuses: Statuses) -> Plan
    ensures { plan_of result ≡ drafted_plan (edges_of edges) (statuses_of statuses) }
{
    Plan {
        headings: 1,
        relation: 1,
        chained: false,
        chain: 0,
        facts: no_facts(),
        nodes: one_node(),
        edges: edges,
        cuts: no_cuts(),
        attachments: no_attachments(),
        bars: no_bars(),
        statuses: statuses,
    }
}

fn refused(row: usize) -> PlanRead
    ensures { plan_read_of result ≡ refused_at 16 row }
{
    PlanRead {
        number: 16,
        record: row,
        plan: drafted(no_edges(), no_statuses()),
    }
}

fn accepted(edges: Edges, statuses: Statuses) -> PlanRead
    ensures { plan_read_of result ≡ fine (drafted_plan (edges_of edges) (statuses_of statuses)) }
{
    PlanRead {
        number: 0,
        record: 0,
        plan: drafted(edges, statuses),
    }
}

// THE PLAN OF A TABLE, row after row. In a refusal the plan is free, in a success the record.
pub fn plan_in(table: &[u8]) -> PlanRead
    ensures { plan_read_of result ≡ tabled table.now }
{
    let Start::Behind(first) = header(table) else {
        return refused(0);
    };
    let mut edges = no_edges();
    let mut statuses = no_statuses();
    let mut at = first;
    let mut row: usize = 1;
    while at < table.len() {
        match rule_at(table, at) {
            Rule::Joins(ends, next) => {
                let n = edges.count;
                if n >= 64 {
                    return refused(row);
                }
                edges.items[n] = edge_from(ends);
                edges.count = n + 1;
                at = next;
                row += 1;
            }
            Rule::Marks(status, next) => {
                let n = statuses.count;
                if n >= 32 {
                    return refused(row);
                }
                statuses.items[n] = status;
                statuses.count = n + 1;
                at = next;
                row += 1;
            }
            Rule::Bad => return refused(row),
        }
    }
    accepted(edges, statuses)
}
