// A case answered, and the amounts that billing brings pooled by unit.
#![tactic(auto)]

ghost use Rattle.std.specs.Prelude.{◌≡◌, [], length};
ghost use Rattle.report.specs.paper.Operations.{refusal};
ghost use Rattle.report.specs.declared.Answer.TheVariants.{Refused};
ghost use Rattle.billing.specs.paper.Pooling.{unpooled as unpooled_of, pool as pool_over};
ghost use Rattle.billing.specs.Shown.{laid};
ghost use Rattle.pooling.specs.Given.{given};

use billing::pools::{Pools, no_pools, pools_of};
use page::clear::clear;
use report::Answer;
use report::operations::answer;

#[derive(Drop)]
pub struct PoolAnswer {
    pub answer: Answer,
    pub pools: Pools,
}

// An answer beside no pools.
fn unpooled(answer: Answer) -> PoolAnswer
    ensures { (result.answer ≡ answer) × (result.pools ≡ laid [] 0) }
{
    PoolAnswer {
        answer: answer,
        pools: no_pools(),
    }
}

// 15: the list's length is not the roster's. What the answer wrote is taken away.
fn turned_away(lines: &mut [u8], events: &mut [u8]) -> PoolAnswer
    ensures { record { answer = result.answer; lines = lines.new; events = events.new; pools = result.pools } ≡ given (unpooled_of (refusal (length lines.old) (length events.old) (Refused 15 0))) }
{
    clear(lines);
    clear(events);
    unpooled(Answer::Refused {
        number: 15,
        record: 0,
    })
}

// POOL THE AMOUNTS OF A CASE, in cents, one for each roster person in rising order; lines and events are those of the answer.
pub fn pool(
    plan: &[u8],
    case: &[u8],
    amounts: &[u32],
    lines: &mut [u8],
    events: &mut [u8],
) -> PoolAnswer
    ensures { record { answer = result.answer; lines = lines.new; events = events.new; pools = result.pools } ≡ given (pool_over plan.now case.now amounts.now (length lines.old) (length events.old)) }
{
    let found = answer(plan, case, lines, events);
    match found {
        Answer::Answered { lines: n, .. } => {
            if amounts.len() != n {
                return turned_away(lines, events);
            }
            PoolAnswer {
                answer: found,
                pools: pools_of(lines, n, amounts),
            }
        }
        _ => unpooled(found),
    }
}
