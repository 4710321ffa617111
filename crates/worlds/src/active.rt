// What a valuation says of the rules, as masks, from the values of nodes.
ghost use Rattle.std.specs.Prelude.{◌≡◌, ◌&&◌, not, [], ℕ, get_or, take};
ghost use Rattle.sets.specs.paper.Sets.{has, any_of};
ghost use Rattle.expressions.specs.paper.Nodes.{on};
ghost use Rattle.worlds.specs.code.Over.{entry};
ghost use Rattle.worlds.specs.code.Conditions.{ActiveBy};

use crate::tables::Active;
use crate::values::any_holds;
use sets::members::those;

// The condition nodes of rules, a row for each kind; last how many defeaters an edge has.
pub type Conditions = [[u8; 64]; 6];

pub const EDGE: usize = 0;

pub const CUT: usize = 1;

pub const ATTACHMENT: usize = 2;

pub const BAR: usize = 3;

pub const STATUS: usize = 4;

pub const DEFEATERS: usize = 5;

// Of these rules those whose condition holds.
pub fn holding(conditions: &[u8; 64], rules: u64, values: &[bool; 256]) -> u64
    ensures { (i : ℕ) → has result i ≡ (has rules i && on values.now (entry conditions.now i)) }
{
    those(rules, |i| values[usize::from(conditions[i])])
}

// Of these edges those that no active defeater holds back.
pub fn undefeated(
    counts: &[u8; 64],
    defeaters: &[[u8; 16]; 64],
    edges: u64,
    values: &[bool; 256],
) -> u64
    ensures { (i : ℕ) → has result i ≡ (has edges i && not (any_of (on values.now) (take (entry counts.now i) (get_or defeaters.now i [])))) }
{
    those(edges, |i| !any_holds(defeaters[i], counts[i], values))
}

// Step 1 and the activity of all rules: `known` what is the same in all worlds, `asked` the rules to be asked in this one.
pub fn active_rules(
    conditions: &Conditions,
    defeaters: &[[u8; 16]; 64],
    known: Active,
    asked: Active,
    decisions: u64,
    values: &[bool; 256],
) -> Active
    ensures { ActiveBy conditions.now defeaters.now known asked decisions values.now result }
{
    let edges = holding(&conditions[EDGE], asked.frozen, values);
    Active {
        frozen: known.frozen | undefeated(&conditions[DEFEATERS], defeaters, edges, values),
        cuts: known.cuts | holding(&conditions[CUT], asked.cuts, values),
        attachments: known.attachments
            | holding(&conditions[ATTACHMENT], asked.attachments, values),
        bars: known.bars | holding(&conditions[BAR], asked.bars, values),
        statuses: known.statuses | holding(&conditions[STATUS], asked.statuses, values),
        decisions,
    }
}
