// The refusals of a case's heading: 8 segment not complete, 9 it does not fit the plan, 12 lines do not fit.
ghost use Rattle.std.specs.Prelude.{◌≡◌, map, take};
ghost use Rattle.sets.specs.paper.Sets.{union_of, All};
ghost use Rattle.records.specs.code.Decoded.{statuses_of};
ghost use Rattle.expressions.specs.code.Coded.{PersonFits};
ghost use Rattle.expressions.specs.code.Listed.{held_by_status};
ghost use Rattle.report.specs.code.Opening.{itself, RulePersons, HeadingFault};

use crate::line::LINE;
use expressions::groups::Groups;
use records::case::CaseHeading;
use records::plan::Statuses;
use sets::persons::person_mask;
use sets::{size, subset, union};

// All who are in one of these sets.
fn united(sets: &[u64]) -> u64
    ensures { result ≡ union_of itself sets.now }
{
    sets.iter().fold(0, |all, &set| union(all, set))
}

// The persons whom statuses name.
fn status_persons(statuses: Statuses) -> u64
    requires { All PersonFits (statuses_of statuses) }
    ensures { result ≡ union_of held_by_status (statuses_of statuses) }
{
    statuses.items[..statuses.count.min(32)]
        .iter()
        .map(|s| person_mask(s.person))
        .fold(0, union)
}

// The persons of all rules, where `groups` are those that a closing goes by.
pub fn rule_persons(groups: Groups, statuses: Statuses) -> u64
    requires { All PersonFits (statuses_of statuses) }
    ensures { RulePersons groups statuses result }
{
    let sets = &groups.sets[..groups.count.min(144)];
    union(united(sets), status_persons(statuses))
}

// The number of the first of 8, 9 and 12; 0 for none. `relation` and `persons` are the plan's, `room` the length of the lent lines.
#[tactic(auto, unfolding(records::specs::code::Decoded::case_heading_of, crate::specs::paper::Operations::heading_fault, crate::specs::paper::Operations::mismatched))]
pub fn heading_fault(heading: CaseHeading, relation: u8, persons: u64, room: usize) -> u8
    ensures { HeadingFault heading relation persons room result }
{
    if !heading.segment_complete {
        return 8;
    }
    if heading.relation != relation
        || heading.scope == 0
        || heading.segment == 0
        || heading.roster == 0
        || !subset(persons, heading.roster)
    {
        return 9;
    }
    if room < LINE * size(heading.roster) as usize {
        return 12;
    }
    0
}
