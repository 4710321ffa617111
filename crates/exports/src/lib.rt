// What a host links: the operations, pools, the lister's work, a person's circle and imported plans, under C names.
#![tactic(auto)]

mod circle;
mod made;
mod pools;
mod tell;

ghost use Rattle.std.specs.Prelude.{◌≡◌, length};
ghost use Rattle.report.specs.paper.Operations.{told as told_of, check as check_of, answer as answer_of, show as show_of};
ghost use Rattle.listing.specs.Shown.{Listed};
ghost use Rattle.billing.specs.paper.Pooling.{pool as pool_over};
ghost use Rattle.drafting.specs.paper.Importing.{imported};
ghost use Rattle.exports.specs.Handed.{numbers, handed, handed_pools, handed_plan};
ghost use Rattle.exports.specs.Circled.{circle_in};

use circle::circle_in;
use drafting::import::import;
use listing::list::list;
use made::tell_made;
use pooling::pool;
use pools::{mark_bytes, tell_pools};
use report::operations::{answer, check, show};
use tell::tell;

// Check a plan: the refusal's number, 0 for none. The seven numbers of document 01 go behind the reference.
#[unsafe(no_mangle)]
pub extern "C" fn lukhveri_check(plan: &[u8], told: &mut [u64; 7]) -> u8
    ensures { (result ≡ (told_of (check_of plan.now)).refusal) × (told.new ≡ numbers (told_of (check_of plan.now))) }
{
    let answer = check(plan);
    tell(answer, told)
}

// Answer a case into two lent buffers of any length and content.
#[unsafe(no_mangle)]
pub extern "C" fn lukhveri_answer(
    plan: &[u8],
    case: &[u8],
    lines: &mut [u8],
    events: &mut [u8],
    told: &mut [u64; 7],
) -> u8
    ensures { record { result = result; told = told.new; lines = lines.new; events = events.new } ≡ handed (answer_of plan.now case.now (length lines.old) (length events.old)) }
{
    let answer = answer(plan, case, lines, events);
    tell(answer, told)
}

// Show the world of that number, counted from 0 among the admissible ones.
#[unsafe(no_mangle)]
pub extern "C" fn lukhveri_show(
    plan: &[u8],
    case: &[u8],
    world: u64,
    lines: &mut [u8],
    events: &mut [u8],
    told: &mut [u64; 7],
) -> u8
    ensures { record { result = result; told = told.new; lines = lines.new; events = events.new } ≡ handed (show_of plan.now case.now world (length lines.old) (length events.old)) }
{
    let answer = show(plan, case, world, lines, events);
    tell(answer, told)
}

// Pool amounts, in cents, one for each roster person in rising order. Lines and events are those of the answer; each array has an entry a unit, then zeros,
// and a mark is 1 or 0. Behind the seven numbers stand the count of units and the unplaced sum.
#[unsafe(no_mangle)]
pub extern "C" fn lukhveri_pool(
    plan: &[u8],
    case: &[u8],
    amounts: &[u32],
    lines: &mut [u8],
    events: &mut [u8],
    blocks: &mut [u64; 64],
    pools: &mut [u64; 64],
    marks: &mut [u8; 64],
    told: &mut [u64; 9],
) -> u8
    ensures { record { result = result; told = told.new; lines = lines.new; events = events.new; blocks = blocks.new; pools = pools.new; marks = marks.new } ≡ handed_pools (pool_over plan.now case.now amounts.now (length lines.old) (length events.old)) }
{
    let found = pool(plan, case, amounts, lines, events);
    let answer = found.answer;
    let units = found.pools;
    let masks = units.blocks;
    let cents = units.cents;
    let flags = units.marks;
    *blocks = masks;
    *pools = cents;
    *marks = mark_bytes(flags);
    tell_pools(answer, units.count, units.unplaced, told)
}

// What the lister prints of a plan and a case, at the start of `text`: its length. Lines and events are those of the answer.
#[unsafe(no_mangle)]
pub extern "C" fn lukhveri_list(
    plan: &[u8],
    case: &[u8],
    lines: &mut [u8],
    events: &mut [u8],
    text: &mut [u8],
) -> usize
    ensures { Listed plan.now case.now lines.old events.old text.old lines.new events.new text.new result }
{
    list(plan, case, lines, events, text)
}

// The circle of a person, as a mask; 0 where plan or case is not read, and for a number that is no person's.
#[unsafe(no_mangle)]
pub extern "C" fn lukhveri_circle(plan: &[u8], case: &[u8], person: u8) -> u64
    ensures { result ≡ circle_in plan.now case.now person }
{
    circle_in(plan, case, person)
}

// Import a table: the plan's bytes go to the start of `plan`, zeros behind them. The three numbers: the refusal, its row, the plan's length.
#[unsafe(no_mangle)]
pub extern "C" fn lukhveri_import(table: &[u8], plan: &mut [u8], made: &mut [u64; 3]) -> u8
    ensures { record { result = result; made = made.new; plan = plan.new } ≡ handed_plan (imported table.now (length plan.old)) }
{
    let found = import(table, plan);
    tell_made(found, made)
}
