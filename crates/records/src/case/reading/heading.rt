// The heading of a case: one record from its bit map on, and the pass over all of them.
ghost use Rattle.std.specs.Prelude.{◌≡◌, ◌≤◌, eqb};
ghost use Rattle.records.specs.paper.Case.{case_formats, case_heading_from, case_heading, empty_case};
ghost use Rattle.records.specs.code.Decoded.{case_heading_of, case_headings_of};
ghost use Rattle.records.specs.code.Readers.{map_read};
ghost use Rattle.records.specs.code.Passes.{raw_of, with_bits, at_start, Passed};
ghost use Rattle.records.specs.code.CasePasses.{case_reading, case_heading_read, with_case_headings};

use crate::case::CaseHeading;
use crate::fields::judge::judged;
use crate::fields::passing::{Passing, at_start, refused};
use crate::fields::{EVIDENCE, Field, Short, Wide, byte_at, mask_at, opt_at, short_at};

// The bits, the heading, and the place after it.
#[derive(Drop)]
pub enum HeadingSeen {
    Got(u8, CaseHeading, usize),
    Bad,
}

pub fn heading_at(s: &[u8], at: usize) -> HeadingSeen
    ensures { case_heading_read result ≡ map_read (with_bits case_heading_from) (raw_of case_formats 1 s.now at) }
{
    let Field::Got(bits, p) = byte_at(s, at, 0, 255) else {
        return HeadingSeen::Bad;
    };
    let Field::Got(relation, p0) = opt_at(s, p, bits % 2 == 1, 0, 255) else {
        return HeadingSeen::Bad;
    };
    let Field::Got(scope, p1) = opt_at(s, p0, bits / 2 % 2 == 1, 0, 255) else {
        return HeadingSeen::Bad;
    };
    let Field::Got(segment, p2) = opt_at(s, p1, bits / 4 % 2 == 1, 0, 255) else {
        return HeadingSeen::Bad;
    };
    let Wide::Got(roster, p4) = mask_at(s, p2, bits / 16 % 2 == 1) else {
        return HeadingSeen::Bad;
    };
    let Field::Got(evidence, p5) = opt_at(s, p4, bits / 32 % 2 == 1, 0, EVIDENCE) else {
        return HeadingSeen::Bad;
    };
    let Short::Got(most, next) = short_at(s, p5, bits / 64 % 2 == 1) else {
        return HeadingSeen::Bad;
    };
    if bits / 128 == 0 {
        let heading = CaseHeading {
            relation: relation,
            scope: scope,
            segment: segment,
            segment_complete: bits / 8 % 2 == 1,
            roster: roster,
            complete: bits / 32 % 2 == 1,
            evidence: evidence,
            most_worlds: most,
        };
        return HeadingSeen::Got(bits, heading, next);
    }
    HeadingSeen::Bad
}

// `headings` is 1 once it is read
#[derive(Drop)]
pub struct CaseHeadingRead {
    pub next: Passing,
    pub headings: usize,
    pub heading: CaseHeading,
}

fn no_heading() -> CaseHeading
    ensures { case_heading_of result ≡ case_heading empty_case }
{
    CaseHeading {
        relation: 0,
        scope: 0,
        segment: 0,
        segment_complete: false,
        roster: 0,
        complete: false,
        evidence: 0,
        most_worlds: 0,
    }
}

pub fn read_case_heading(s: &[u8]) -> CaseHeadingRead
    ensures { Passed case_reading with_case_headings 1 s.now at_start result.next (case_headings_of result.headings result.heading)
        × (result.next.record ≤ result.next.at) × (result.headings ≤ 1) × (result.next.headed ≡ eqb result.headings 1) }
{
    let mut headings: usize = 0;
    let mut heading = no_heading();
    let mut here = at_start();
    while here.at < s.len() {
        let at = here.at;
        if s[at] != 1 {
            break;
        }
        let HeadingSeen::Got(bits, seen, next) = heading_at(s, at + 1) else {
            return CaseHeadingRead {
                next: refused(here, 1),
                headings: headings,
                heading: heading,
            };
        };
        here.number = judged(headings, 1, bits & 81 == 81, true);
        if here.number != 0 {
            break;
        }
        headings = 1;
        here.headed = true;
        heading = seen;
        here.at = next;
        here.record = here.record + 1;
    }
    CaseHeadingRead {
        next: here,
        headings: headings,
        heading: heading,
    }
}
