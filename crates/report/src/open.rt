// What stands before the worlds are looked at: why they are not, or what they need.
ghost use Rattle.std.specs.Prelude.{◌≡◌};
ghost use Rattle.records.specs.promises.Sound.{Sound, SoundCase};
ghost use Rattle.records.specs.code.Decoded.{plan_of, case_of};
ghost use Rattle.expressions.specs.code.Coded.{HoldsUses};
ghost use Rattle.report.specs.code.Open.{stop_by, OpensCase};

use crate::Answer;
use crate::heading::{heading_fault, rule_persons};
use expressions::bindable::bindable;
use expressions::bindings::{Bound, bind_facts};
use expressions::reach::{Reach, reach_of};
use expressions::variables::{Count, count_worlds};
use records::case::Case;
use records::checked::Checked;
use records::plan::Plan;

#[derive(Drop)]
pub enum Stop {
    Nothing,
    // the roster is not complete
    Incomplete,
    Stopped(Answer),
}

// `reach` and `bound` are for the worlds, where nothing stops.
#[derive(Drop)]
pub struct Opened {
    pub stop: Stop,
    pub reach: Reach,
    pub bound: Bound,
}

// The first of what stops a case: the heading's refusal, a roster that is not complete, refusals 5 and 10, and 11.
#[tactic(auto, unfolding(crate::specs::code::Open::stop_by))]
fn stop_of(fault: u8, complete: bool, found: Checked, count: Count) -> Stop
    ensures { result ≡ stop_by fault complete found count }
{
    if fault != 0 {
        return Stop::Stopped(Answer::Refused {
            number: fault,
            record: 0,
        });
    }
    if !complete {
        return Stop::Incomplete;
    }
    if let Checked::Refused { number, record } = found {
        return Stop::Stopped(Answer::Refused { number, record });
    }
    if count.refused {
        return Stop::Stopped(Answer::TooManyWorlds {
            count: count.count,
            most: count.maximum,
        });
    }
    Stop::Nothing
}

// `uses`: the facts that each node uses; `room`: the length of the lent lines.
pub fn open_case(plan: Plan, case: Case, uses: &[u64; 256], room: usize) -> Opened
    requires { Sound (plan_of plan) × SoundCase (plan_of plan) (case_of case) × HoldsUses plan.nodes uses.now }
    ensures { OpensCase plan case room result }
{
    let heading = case.heading;
    let found = bindable(case);
    let reach = reach_of(plan, uses, heading.roster, case.constraints);
    let bound = bind_facts(plan, case, reach.bound);
    let persons = rule_persons(reach.groups, plan.statuses);
    let fault = heading_fault(heading, plan.relation, persons, room);
    let count = count_worlds(
        bound.codes,
        reach.count,
        reach.undecided.count,
        heading.most_worlds,
    );
    let stop = stop_of(fault, heading.complete, found, count);
    Opened { stop, reach, bound }
}
