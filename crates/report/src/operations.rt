// The three operations of document 01, for all bytes offered and all lent lengths.
ghost use Rattle.std.specs.Prelude.{◌≡◌, length};
ghost use Rattle.report.specs.paper.Operations.{check as check_of, answer as answer_of, show as show_of};

use crate::Answer;
use crate::operate::operate;
use crate::run::Wanted;
use records::checked::Checked;
use records::plan::checks::check as checked;

// CHECK A PLAN
#[tactic(auto, unfolding(crate::specs::paper::Operations::check))]
pub fn check(plan: &[u8]) -> Answer
    ensures { result ≡ check_of plan.now }
{
    match checked(plan) {
        Checked::Accepted => Answer::Accepted,
        Checked::Refused { number, record } => Answer::Refused { number, record },
    }
}

// ANSWER A CASE, into buffers of any length; what stood in them does not matter.
pub fn answer(plan: &[u8], case: &[u8], lines: &mut [u8], events: &mut [u8]) -> Answer
    ensures { record { answer = result; lines = lines.new; events = events.new } ≡ answer_of plan.now case.now (length lines.old) (length events.old) }
{
    let wanted = Wanted {
        all: true,
        number: 0,
    };
    operate(plan, case, wanted, lines, events)
}

// SHOW A WORLD, counted from 0 among the admissible.
pub fn show(plan: &[u8], case: &[u8], world: u64, lines: &mut [u8], events: &mut [u8]) -> Answer
    ensures { record { answer = result; lines = lines.new; events = events.new } ≡ show_of plan.now case.now world (length lines.old) (length events.old) }
{
    let wanted = Wanted {
        all: false,
        number: world,
    };
    operate(plan, case, wanted, lines, events)
}
