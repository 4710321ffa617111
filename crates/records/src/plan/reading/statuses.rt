// Statuses: one record from its bit map on, and the pass over all of them.
ghost use Rattle.std.specs.Prelude.{◌≡◌, [], ◌≤◌, ◌+◌, length};
ghost use Rattle.records.specs.paper.Plan.{plan_formats};
ghost use Rattle.records.specs.code.Readers.{map_read};
ghost use Rattle.records.specs.code.Passes.{raw_of, with_bits, Passed};
ghost use Rattle.records.specs.paper.Plan.{status_from};
ghost use Rattle.records.specs.code.PlanPasses.{plan_reading, status_read, with_statuses};
ghost use Rattle.records.specs.code.Decoded.{statuses_of};

use crate::fields::judge::judged;
use crate::fields::passing::{Passing, refused};
use crate::fields::{CITATION, Field, PERSON, byte_at, opt_at};
use crate::plan::{Status, Statuses};

// The bits, the status, and the place after it.
#[derive(Drop)]
pub enum StatusSeen {
    Got(u8, Status, usize),
    Bad,
}

pub fn status_at(s: &[u8], at: usize) -> StatusSeen
    ensures { status_read result ≡ map_read (with_bits status_from) (raw_of plan_formats 8 s.now at) }
{
    let Field::Got(bits, p) = byte_at(s, at, 0, 255) else {
        return StatusSeen::Bad;
    };
    let Field::Got(person, p0) = opt_at(s, p, bits % 2 == 1, 0, PERSON) else {
        return StatusSeen::Bad;
    };
    let Field::Got(condition, p1) = opt_at(s, p0, bits / 2 % 2 == 1, 0, 255) else {
        return StatusSeen::Bad;
    };
    let Field::Got(citation, next) = opt_at(s, p1, bits / 4 % 2 == 1, 0, CITATION) else {
        return StatusSeen::Bad;
    };
    if bits / 8 == 0 {
        let status = Status {
            person: person,
            condition: condition,
            citation: citation,
        };
        return StatusSeen::Got(bits, status, next);
    }
    StatusSeen::Bad
}

#[derive(Drop)]
pub struct StatusesRead {
    pub next: Passing,
    pub statuses: Statuses,
}

pub fn no_statuses() -> Statuses
    ensures { (statuses_of result ≡ []) × (result.count ≡ 0) × (length result.items ≡ 32) }
{
    let blank = Status {
        person: 0,
        condition: 0,
        citation: 0,
    };
    Statuses {
        count: 0,
        items: [blank; 32],
    }
}

pub fn read_statuses(s: &[u8], from: Passing) -> StatusesRead
    requires { from.record ≤ from.at }
    ensures { Passed plan_reading with_statuses 8 s.now from result.next (statuses_of result.statuses)
        × (result.next.record ≤ result.next.at) × (result.next.headed ≡ from.headed) }
{
    let mut statuses = no_statuses();
    let mut here = from;
    while here.at < s.len() && here.number == 0 {
        let at = here.at;
        if s[at] != 8 {
            break;
        }
        let StatusSeen::Got(bits, status, next) = status_at(s, at + 1) else {
            return StatusesRead {
                next: refused(here, 1),
                statuses: statuses,
            };
        };
        let n = statuses.count;
        here.number = judged(n, 32, bits & 7 == 7, from.headed);
        if here.number != 0 {
            break;
        }
        statuses.items[n] = status;
        statuses.count = n + 1;
        here.at = next;
        here.record = here.record + 1;
    }
    StatusesRead {
        next: here,
        statuses: statuses,
    }
}
