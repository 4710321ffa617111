// The answer, once all worlds are looked at: lines and events are written, or one of 13 and 14 is refused.
ghost use Rattle.std.specs.Prelude.{◌+◌, ◌*◌, ◌≤◌, length, take, drop};
ghost use Rattle.sets.specs.paper.Sets.{size as ones};
ghost use Rattle.report.specs.paper.Line.{line_length};
ghost use Rattle.report.specs.code.Written.{LinesBy};
ghost use Rattle.report.specs.code.Finish.{Ends, Finishes};

use crate::Answer;
use crate::bare::without_worlds;
use crate::event::EVENT;
use crate::happened::{count_events, write_events};
use crate::lines::write_lines;
use crate::run::Wanted;
use crate::sums::{BEGUN, Sums, TALLY};
use crate::walk::Walked;
use expressions::influence::Influence;
use page::clear::clear;
use records::case::Case;
use records::plan::Plan;
use sets::size;
use worlds::tables::Noted;

// What lines and events need beside the worlds: the sets of influence, `facts` of them of facts, and the facts that took their default; nothing
// of it for a shown world.
#[derive(Drop)]
pub struct Opens {
    pub influence: Influence,
    pub facts: usize,
    pub defaults: u64,
}

// The lines of all persons; the first `known` sets of influence are of facts, the others of decisions.
fn write_open(lines: &mut [u8], sums: &Sums, roster: u64, sets: &[u64], known: usize)
    requires { (line_length * ones roster ≤ length lines.old) × (known ≤ 64) × (known ≤ length sets.now) × (length sets.now ≤ known + 16) }
    ensures { LinesBy sums.now roster (take known sets.now) (drop known sets.now) lines.old lines.new }
{
    write_lines(lines, sums, roster, &sets[..known], &sets[known..]);
}

pub fn finish(
    plan: Plan,
    case: Case,
    opens: Opens,
    wanted: Wanted,
    walked: Walked,
    noted: &Noted,
    sums: &Sums,
    lines: &mut [u8],
    events: &mut [u8],
) -> Answer
    requires { Ends plan case opens walked noted.now sums.now lines.old events.old }
    ensures { Finishes plan case opens wanted walked noted.now sums.now lines.old lines.new events.old events.new result }
{
    let roster = case.heading.roster;
    if sums[TALLY][BEGUN] == 0 {
        return without_worlds(lines, roster, 6, wanted);
    }
    let count = count_events(sums, noted, opens.defaults, plan.cuts.count.min(16));
    let listed = walked.listing.count;
    let total = count + listed;
    if walked.listing.full || events.len() < EVENT * total {
        clear(events);
        return Answer::Refused {
            number: 13,
            record: 0,
        };
    }
    let sets = &opens.influence.sets[..opens.influence.count];
    write_open(lines, sums, roster, sets, opens.facts);
    write_events(
        events,
        plan,
        case,
        sums,
        noted,
        opens.defaults,
        count,
        listed,
    );
    Answer::Answered {
        lines: size(roster) as usize,
        events: total,
        worlds: walked.worlds,
    }
}
