// A case that is bound over its plan, with no more worlds than its heading allows: its worlds, then its answer.
ghost use Rattle.report.specs.code.Ready.{Concerns, IsReady, AnswersReady};

use crate::Answer;
use crate::classes::spans_of;
use crate::finish::{Opens, finish};
use crate::free::free_variables;
use crate::run::{Wanted, run, started};
use crate::walk::Ledger;
use expressions::bindings::Bound;
use expressions::influence::{Influence, influence_sets, variables_of};
use expressions::reach::Reach;
use expressions::slots::{boolean_count, variable_order};
use records::case::Case;
use records::plan::Plan;
use worlds::make::{common_of, lay_tables};

// What open persons' lines and events 8 need; nothing of it for a shown world.
#[tactic(auto, using(records::proofs::UsedLaws::used_take, records::proofs::UsedLaws::used_length), unfolding(expressions::specs::code::Influences::sets_of))]
fn concerns(influence: Influence, facts: usize, defaults: u64, all: bool) -> Opens
    ensures { Concerns influence facts defaults all result }
{
    if !all {
        return Opens {
            influence: Influence {
                count: 0,
                sets: [0; 80],
            },
            facts: 0,
            defaults: 0,
        };
    }
    let used = Influence {
        count: influence.count.min(80),
        ..influence
    };
    Opens {
        influence: used,
        facts,
        defaults,
    }
}

// The worlds of the case, and its lines and events.
pub fn answer_ready(
    plan: Plan,
    case: Case,
    reach: Reach,
    bound: Bound,
    uses: &[u64; 256],
    wanted: Wanted,
    lines: &mut [u8],
    events: &mut [u8],
) -> Answer
    requires { IsReady plan case reach bound uses.now lines.old events.old }
    ensures { AnswersReady plan case wanted lines.old lines.new events.old events.new result }
{
    let roster = case.heading.roster;
    let undecided = reach.undecided;
    let influence = influence_sets(reach, variables_of(bound.codes));
    let mut t = [[0u64; 64]; 21];
    lay_tables(&mut t, plan, undecided, reach.groups, influence, roster);
    let common = common_of(plan, roster);
    let order = variable_order(boolean_count(plan.facts), undecided.count, reach.count);
    let mut free = [0u8; 16];
    let n = free_variables(order, bound.codes, &mut free);
    let spans = spans_of(&influence.sets, influence.count, reach.count, &free, n);
    let mut ledger = Ledger {
        values: [false; 256],
        noted: [[0; 64]; 3],
        sums: started(roster),
    };
    let walked = run(
        &t,
        common,
        plan,
        uses,
        case.constraints,
        bound.codes,
        &free,
        &spans,
        n,
        wanted,
        &mut ledger,
        events,
    );
    let opens = concerns(influence, reach.count, bound.defaults, wanted.all);
    finish(
        plan,
        case,
        opens,
        wanted,
        walked,
        &ledger.noted,
        &ledger.sums,
        lines,
        events,
    )
}
