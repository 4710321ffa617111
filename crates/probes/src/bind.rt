// A case bound over a plan, from their bytes.
ghost use Rattle.std.specs.Prelude.{◌≡◌, get_or};
ghost use Rattle.records.specs.paper.Fields.{fine, refused};
ghost use Rattle.records.specs.code.Decoded.{plan_of, case_of};
ghost use Rattle.records.specs.promises.Sound.{Sound, SoundCase};
ghost use Rattle.expressions.specs.code.Influences.{sets_of};
ghost use Rattle.probes.specs.Entries.{both_read};
ghost use Rattle.probes.specs.Binds.{Binds};

use crate::refusal::{Refusal, refusal_of};
use expressions::bindings::bindings;
use expressions::influence::{Influence, influence_sets, variables_of};
use expressions::reach::reach_of;
use expressions::slots::{Slots, boolean_count, variable_order};
use expressions::uses::node_uses;
use expressions::variables::{Count, count_worlds};
use records::case::Case;
use records::case::reading::read_case;
use records::plan::Plan;
use records::plan::checks::decode_plan;

// The code of each fact's binding, the influence of facts and decisions, the order of what a world gives values to, the count of worlds, and
// the first refusal; nothing but the refusal where plan or case is not read.
#[derive(Drop)]
pub struct Bound {
    pub codes: [u8; 64],
    pub influence: Influence,
    pub order: Slots,
    pub count: Count,
    pub refusal: Refusal,
}

fn nothing(number: u8, place: usize) -> Bound
    ensures { Binds (refused number place) result }
{
    Bound {
        codes: [0; 64],
        influence: Influence {
            count: 0,
            sets: [0; 80],
        },
        order: Slots {
            count: 0,
            items: [0; 80],
        },
        count: Count {
            refused: false,
            count: 0,
            maximum: 0,
        },
        refusal: Refusal { number, place },
    }
}

fn bound_over(plan: Plan, case: Case) -> Bound
    requires { Sound (plan_of plan) × SoundCase (plan_of plan) (case_of case) }
    ensures { Binds (fine (record { plan = plan_of plan; case = case_of case })) result }
{
    let heading = case.heading;
    let uses = node_uses(plan.nodes);
    let reach = reach_of(plan, &uses, heading.roster, case.constraints);
    let undecided = reach.undecided.count;
    let codes = bindings(plan, case, reach.bound);
    let influence = influence_sets(reach, variables_of(codes));
    let order = variable_order(boolean_count(plan.facts), undecided, reach.count);
    let count = count_worlds(codes, reach.count, undecided, heading.most_worlds);
    let refusal = refusal_of(case, count.refused);
    Bound {
        codes,
        influence,
        order,
        count,
        refusal,
    }
}

pub fn bind(plan: &[u8], case: &[u8]) -> Bound
    ensures { Binds (both_read plan.now case.now) result }
{
    let read = decode_plan(plan);
    if read.number != 0 {
        return nothing(read.number, read.record);
    }
    let p = read.plan;
    let got = read_case(p, case);
    if got.number != 0 {
        return nothing(got.number, got.record);
    }
    let c = got.case;
    bound_over(p, c)
}

// A set of the list; nobody past the last.
#[tactic(auto, using(crate::proofs::Entering::taken_at, crate::proofs::Entering::taken_past, crate::proofs::Entering::taken_long), unfolding(expressions::specs::code::Influences::sets_of))]
pub fn set_at(known: Influence, number: usize) -> u64
    ensures { result ≡ get_or (sets_of known) number 0 }
{
    if number < known.count && number < 80 {
        known.sets[number]
    } else {
        0
    }
}
