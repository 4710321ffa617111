// One vector run: its operation on buffers that are lent full of dirt, and what came of it compared with what is expected.
ghost use Rattle.std.specs.Prelude.{◌≤◌, length};

use crate::lent::{holds, soil};
use crate::listed::lists;
use crate::pooled::{amounts_of, page_of};
use crate::vector::{ANSWER, IMPORT, LIST, Outcome, POOL, SHOW, Vector, same};
use billing::pools::{Pools, no_pools};
use drafting::import::import;
use encoding::made::Made;
use pooling::{PoolAnswer, pool};
use report::Answer;
use report::operations::{answer, check, show};

// A table stands in the plan's place of a line, its plan's bytes and length in those of the lines.
fn imported(table: &[u8], plan: &mut [u8]) -> Answer {
    let made = import(table, plan);
    match made {
        Made::Written(length) => Answer::Answered {
            lines: length,
            events: 0,
            worlds: 0,
        },
        Made::Refused {
            number,
            record: row,
        } => Answer::Refused {
            number: number,
            record: row,
        },
    }
}

fn report_on(
    op: u64,
    world: u64,
    plan: &[u8],
    case: &[u8],
    lines: &mut [u8],
    events: &mut [u8],
) -> Answer {
    if op == ANSWER {
        return answer(plan, case, lines, events);
    }
    if op == SHOW {
        return show(plan, case, world, lines, events);
    }
    if op == IMPORT {
        return imported(plan, lines);
    }
    check(plan)
}

// What the operation answers, and the pools where it makes some.
fn operate(
    op: u64,
    world: u64,
    plan: &[u8],
    case: &[u8],
    amounts: &[u8],
    lines: &mut [u8],
    events: &mut [u8],
) -> PoolAnswer
    requires { length amounts.now ≤ 1024 }
{
    if op == POOL {
        let list = amounts_of(amounts);
        let n = amounts.len() / 4;
        return pool(plan, case, &list[..n], lines, events);
    }
    PoolAnswer {
        answer: report_on(op, world, plan, case, lines, events),
        pools: no_pools(),
    }
}

// Whether these are the pools of the line, and zeros past them.
fn pooled_so(found: Pools, unplaced: u64, expected: &[u8]) -> bool {
    if found.unplaced != unplaced {
        return false;
    }
    if expected.len() % 17 != 0 {
        return false;
    }
    if expected.len() / 17 != found.count {
        return false;
    }
    let page = page_of(found);
    holds(&page, expected, 0)
}

// Whether the operation, on these buffers, answers the numbers and the pools of the line and leaves its bytes in them.
fn answers(
    vector: Vector,
    plan: &[u8],
    case: &[u8],
    line_bytes: &[u8],
    event_bytes: &[u8],
    amounts: &[u8],
    pools: &[u8],
    lines: &mut [u8],
    events: &mut [u8],
) -> bool
    requires { length amounts.now ≤ 1024 }
{
    soil(lines);
    soil(events);
    let found = operate(vector.op, vector.world, plan, case, amounts, lines, events);
    let answer = found.answer;
    same(Outcome::of(answer), vector.expected)
        && pooled_so(found.pools, vector.unplaced, pools)
        && holds(lines, line_bytes, 0)
        && holds(events, event_bytes, 0)
}

// The buffers are lent with just the lengths of the line; a line that wants longer ones than there are differs, and one with more amounts than there is
// room for.
fn lend(
    vector: Vector,
    plan: &[u8],
    case: &[u8],
    line_bytes: &[u8],
    event_bytes: &[u8],
    amounts: &[u8],
    pools: &[u8],
    lines: &mut [u8],
    events: &mut [u8],
) -> bool {
    let m = vector.line_room as usize;
    let n = vector.event_room as usize;
    if m > lines.len() {
        return false;
    }
    if n > events.len() {
        return false;
    }
    if vector.op == LIST {
        return lists(
            vector.expected,
            plan,
            case,
            line_bytes,
            event_bytes,
            &mut lines[0..m],
            &mut events[0..n],
        );
    }
    if amounts.len() > 1024 || amounts.len() % 4 != 0 {
        return false;
    }
    answers(
        vector,
        plan,
        case,
        line_bytes,
        event_bytes,
        amounts,
        pools,
        &mut lines[0..m],
        &mut events[0..n],
    )
}

// Whether a vector agrees; its bytes are in the store.
pub fn agrees(vector: Vector, store: &[u8], lines: &mut [u8], events: &mut [u8]) -> bool {
    let ends = vector.ends;
    let a = ends.plan;
    let b = ends.case;
    let c = ends.lines;
    let d = ends.events;
    let e = ends.amounts;
    let f = ends.pools;
    if a > b {
        return false;
    }
    if b > c {
        return false;
    }
    if c > d {
        return false;
    }
    if d > e {
        return false;
    }
    if e > f {
        return false;
    }
    if f > store.len() {
        return false;
    }
    lend(
        vector,
        &store[0..a],
        &store[a..b],
        &store[b..c],
        &store[c..d],
        &store[d..e],
        &store[e..f],
        lines,
        events,
    )
}
