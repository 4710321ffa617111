// A person's circle, from the bytes of plan and case.
ghost use Rattle.std.specs.Prelude.{◌≡◌, ◌<◌};
ghost use Rattle.records.specs.code.Decoded.{plan_of, case_of};
ghost use Rattle.records.specs.promises.Sound.{Sound, SoundCase};
ghost use Rattle.expressions.specs.paper.Bindings.{frame_of};
ghost use Rattle.expressions.specs.paper.Influence.{circle};
ghost use Rattle.exports.specs.Circled.{circle_in};

use expressions::circle::{circle_of, joins_of};
use expressions::reach::reach_of;
use expressions::uses::node_uses;
use records::case::Case;
use records::case::reading::read_case;
use records::plan::Plan;
use records::plan::checks::decode_plan;

fn circle_over(plan: Plan, case: Case, person: u8) -> u64
    requires { Sound (plan_of plan) × SoundCase (plan_of plan) (case_of case) × (person < 64) }
    ensures { result ≡ circle (frame_of (plan_of plan) (case_of case)) person }
{
    let heading = case.heading;
    let constraints = case.constraints;
    let uses = node_uses(plan.nodes);
    let reach = reach_of(plan, &uses, heading.roster, constraints);
    let groups = reach.groups;
    let facts = reach.facts;
    let undecided = reach.undecided;
    let decisions = reach.decisions;
    let joins = joins_of(groups, facts, reach.count, decisions, undecided.count);
    circle_of(joins, person)
}

// Nobody where plan or case is not read, and for a number that is no person's.
pub fn circle_in(plan: &[u8], case: &[u8], person: u8) -> u64
    ensures { result ≡ circle_in plan.now case.now person }
{
    if person > 63 {
        return 0;
    }
    let read = decode_plan(plan);
    if read.number != 0 {
        return 0;
    }
    let p = read.plan;
    let got = read_case(p, case);
    if got.number != 0 {
        return 0;
    }
    let c = got.case;
    circle_over(p, c, person)
}
