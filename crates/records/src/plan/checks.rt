// Check a plan: its records, and then 4, 6 and 7 in order.
pub mod crossing;
pub mod decisions;
pub mod elections;
pub mod fact_order;
pub mod name_faults;
pub mod naming;

ghost use Rattle.std.specs.Prelude.{◌≡◌};
ghost use Rattle.records.specs.paper.Plan.{plan_faults, checked_plan};
ghost use Rattle.records.specs.code.Decoded.{plan_of};
ghost use Rattle.records.specs.code.Check.{checked_of};
ghost use Rattle.records.specs.code.PlanRead.{plan_read_of};

use crate::checked::Checked;
use crate::plan::Plan;
use crate::plan::checks::crossing::crossings;
use crate::plan::checks::elections::elections;
use crate::plan::checks::name_faults::naming;
use crate::plan::reading::{PlanRead, read_plan};

pub fn plan_faults(plan: Plan) -> Checked
    ensures { result ≡ checked_of (plan_faults (plan_of plan)) }
{
    let named = naming(plan);
    let Checked::Accepted = named else {
        return named;
    };
    let crossed = crossings(plan);
    let Checked::Accepted = crossed else {
        return crossed;
    };
    elections(plan)
}

// The plan that comes out of its bytes, or its refusal: for the crates above. In a refusal the plan is free, in a success the record.
pub fn decode_plan(s: &[u8]) -> PlanRead
    ensures { plan_read_of result ≡ checked_plan s.now }
{
    let mut read = read_plan(s);
    if read.number != 0 {
        return read;
    }
    let found = plan_faults(read.plan);
    let Checked::Refused { number, record } = found else {
        return read;
    };
    read.number = number;
    read.record = record;
    read
}

// CHECK A PLAN
pub fn check(plan: &[u8]) -> Checked
    ensures { result ≡ checked_of (checked_plan plan.now) }
{
    let read = decode_plan(plan);
    if read.number == 0 {
        return Checked::Accepted;
    }
    Checked::Refused {
        number: read.number,
        record: read.record,
    }
}
