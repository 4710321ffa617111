// DEMAND 3 OF THE PROGRAM: two cases over one plan, answered into four lent buffers.
#![tactic(auto)]

ghost use Rattle.std.specs.Prelude.{◌≡◌, length};
ghost use Rattle.report.specs.paper.Operations.{answer as answer_of};
ghost use Rattle.promises.specs.Private.{PrivateLines};

use report::Answer;
use report::operations::answer;

#[derive(Drop)]
pub struct Two {
    pub first: Answer,
    pub second: Answer,
}

// Both answers, with every byte of the four buffers, are what answering gives; and demand 3 itself holds of the bytes that stand in the two buffers of
// lines at exit. A constant line would meet demand 3 alone.
pub fn answer_two(
    plan: &[u8],
    first: &[u8],
    second: &[u8],
    lines_first: &mut [u8],
    events_first: &mut [u8],
    lines_second: &mut [u8],
    events_second: &mut [u8],
) -> Two
    ensures one { record { answer = result.first; lines = lines_first.new; events = events_first.new } ≡ answer_of plan.now first.now (length lines_first.old) (length events_first.old) }
    ensures other { record { answer = result.second; lines = lines_second.new; events = events_second.new } ≡ answer_of plan.now second.now (length lines_second.old) (length events_second.old) }
    ensures private { PrivateLines plan.now first.now second.now result.first result.second lines_first.new lines_second.new }
{
    let one = answer(plan, first, lines_first, events_first);
    let other = answer(plan, second, lines_second, events_second);
    Two {
        first: one,
        second: other,
    }
}
