// The events of all worlds, written once: kinds 1 to 8 in front, those of kind 9 behind them.
ghost use Rattle.std.specs.Prelude.{◌≡◌, ◌+◌, ◌*◌, ◌≤◌, length};
ghost use Rattle.records.specs.code.Decoded.{plan_of, case_of};
ghost use Rattle.report.specs.paper.EventList.{event_length};
ghost use Rattle.report.specs.code.EventsWritten.{event_count, RuleEvents, EventsWritten, AllWritten};

use crate::event::EVENT;
use crate::kinds::{
    write_applied, write_attachments, write_bars, write_defaults, write_frozen, write_statuses,
};
use crate::pairs::{count_pairs, write_blocked, write_clashes};
use crate::sums::{APPLIED, BARRING, EXCLUDING, FROZEN, MOVED, Sums, TALLY};
use expressions::evidence::evidence_by_fact;
use records::case::Case;
use records::plan::Plan;
use sets::size;
use worlds::tables::{BLOCKINGS, CLASHES, Noted};

// How many events there are but for kind 9.
#[tactic(auto, using(sets::proofs::SetLaws::size_le), unfolding(crate::specs::code::EventsWritten::event_count))]
pub fn count_events(sums: &Sums, noted: &Noted, defaults: u64, cuts: usize) -> usize
    requires { cuts ≤ 16 }
    ensures { (result ≡ event_count sums.now noted.now defaults cuts) × (result ≤ 4096) }
{
    let rules = size(sums[TALLY][FROZEN]) + size(sums[TALLY][APPLIED]) + size(sums[TALLY][MOVED]);
    let more = size(sums[TALLY][BARRING]) + size(sums[TALLY][EXCLUDING]) + size(defaults);
    let pairs = count_pairs(&noted[BLOCKINGS], cuts) + count_pairs(&noted[CLASHES], cuts);
    (rules + more) as usize + pairs
}

// The events of kinds 1 to 8 from the start of the buffer.
fn write_rules(events: &mut [u8], plan: Plan, case: Case, sums: &Sums, noted: &Noted, defaults: u64)
    requires { RuleEvents plan case sums.now noted.now defaults (length events.old) }
    ensures { EventsWritten (plan_of plan) (case_of case) sums.now noted.now defaults events.old events.new }
{
    let edges = plan.edges;
    let cuts = plan.cuts;
    let attachments = plan.attachments;
    let statuses = plan.statuses;
    let evidence = evidence_by_fact(case);
    let n = cuts.count.min(16);
    let a = write_frozen(events, 0, edges, sums[TALLY][FROZEN]);
    let b = write_applied(events, a, cuts, &evidence, sums[TALLY][APPLIED]);
    let c = write_blocked(events, b, cuts, &evidence, &noted[BLOCKINGS], n);
    let d = write_clashes(events, c, &noted[CLASHES], n);
    let e = write_attachments(events, d, attachments, &evidence, sums[TALLY][MOVED]);
    let f = write_bars(events, e, sums[TALLY][BARRING]);
    let g = write_statuses(events, f, statuses, sums[TALLY][EXCLUDING]);
    write_defaults(events, g, cuts, attachments, defaults);
}

// All events: `listed` of kind 9 stand at the start of the buffer, and come behind the `count` others, where there are any.
#[tactic(auto, using(crate::proofs::HappenedLaws::none_written, crate::proofs::HappenedLaws::room_same, crate::proofs::HappenedLaws::behind_copied))]
pub fn write_events(
    events: &mut [u8],
    plan: Plan,
    case: Case,
    sums: &Sums,
    noted: &Noted,
    defaults: u64,
    count: usize,
    listed: usize,
)
    requires { RuleEvents plan case sums.now noted.now defaults (length events.old) × (event_length * (count + listed) ≤ length events.old) }
    ensures { AllWritten (plan_of plan) (case_of case) sums.now noted.now defaults count listed events.old events.new }
{
    if count == 0 {
        return;
    }
    events.copy_within(..listed * EVENT, count * EVENT);
    write_rules(events, plan, case, sums, noted, defaults);
}
