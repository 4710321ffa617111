// A case answered, or one of its worlds shown: the refusals in their order, then the worlds.
ghost use Rattle.std.specs.Prelude.{◌≡◌, length};
ghost use Rattle.report.specs.paper.Operations.{opened};
ghost use Rattle.report.specs.code.Operate.{Operates};
ghost use Rattle.report.specs.declared.Answer.TheVariants.{Refused};

use crate::Answer;
use crate::bare::without_worlds;
use crate::open::{Stop, open_case};
use crate::ready::answer_ready;
use crate::run::Wanted;
use expressions::uses::node_uses;
use page::clear::clear;
use records::case::reading::read_case;
use records::plan::checks::decode_plan;

fn refused(number: u8, record: usize) -> Answer
    ensures { result ≡ Refused number «record» }
{
    Answer::Refused { number, record }
}

// Bytes to plan and case, with their refusals; then what stands before the worlds, and the worlds.
pub fn operate(
    plan: &[u8],
    case: &[u8],
    wanted: Wanted,
    lines: &mut [u8],
    events: &mut [u8],
) -> Answer
    ensures { Operates wanted (opened plan.now case.now (length lines.old)) lines.old lines.new events.old events.new result }
{
    clear(lines);
    clear(events);
    let read = decode_plan(plan);
    if read.number != 0 {
        return refused(read.number, read.record);
    }
    let got = read_case(read.plan, case);
    if got.number != 0 {
        return refused(got.number, got.record);
    }
    let uses = node_uses(read.plan.nodes);
    let opened = open_case(read.plan, got.case, &uses, lines.len());
    match opened.stop {
        Stop::Stopped(answer) => answer,
        Stop::Incomplete => without_worlds(lines, got.case.heading.roster, 5, wanted),
        Stop::Nothing => answer_ready(
            read.plan,
            got.case,
            opened.reach,
            opened.bound,
            &uses,
            wanted,
            lines,
            events,
        ),
    }
}
