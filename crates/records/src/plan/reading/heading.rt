// The heading: one record from its bit map on, and the pass over all of them.
ghost use Rattle.std.specs.Prelude.{◌≡◌, ◌≤◌, eqb};
ghost use Rattle.records.specs.paper.Plan.{plan_formats};
ghost use Rattle.records.specs.code.Readers.{map_read};
ghost use Rattle.records.specs.code.Passes.{raw_of, with_bits, at_start, Passed};
ghost use Rattle.records.specs.paper.Plan.{heading_from};
ghost use Rattle.records.specs.code.PlanPasses.{plan_reading, heading_read, with_headings};
ghost use Rattle.records.specs.code.Decoded.{headings_of};

use crate::fields::judge::judged;
use crate::fields::passing::{Passing, at_start, refused};
use crate::fields::{CITATION, Field, byte_at, opt_at};

// The bits, the roster relation, the base-chain citation, and the place after it.
#[derive(Drop)]
pub enum HeadingSeen {
    Got(u8, u8, u8, usize),
    Bad,
}

pub fn heading_at(s: &[u8], at: usize) -> HeadingSeen
    ensures { heading_read result ≡ map_read (with_bits heading_from) (raw_of plan_formats 1 s.now at) }
{
    let Field::Got(bits, p) = byte_at(s, at, 0, 255) else {
        return HeadingSeen::Bad;
    };
    let Field::Got(relation, p0) = opt_at(s, p, bits % 2 == 1, 0, 255) else {
        return HeadingSeen::Bad;
    };
    let Field::Got(chain, next) = opt_at(s, p0, bits / 2 % 2 == 1, 0, CITATION) else {
        return HeadingSeen::Bad;
    };
    if bits / 4 == 0 {
        return HeadingSeen::Got(bits, relation, chain, next);
    }
    HeadingSeen::Bad
}

#[derive(Drop)]
pub struct HeadingRead {
    pub next: Passing,
    pub headings: usize,
    pub relation: u8,
    pub chained: bool,
    pub chain: u8,
}

// What the pass hands on when it ends early.
fn heading_read(
    next: Passing,
    headings: usize,
    relation: u8,
    chained: bool,
    chain: u8,
) -> HeadingRead
    ensures { result ≡ record { next = next; headings = headings; relation = relation; chained = chained; chain = chain } }
{
    HeadingRead {
        next: next,
        headings: headings,
        relation: relation,
        chained: chained,
        chain: chain,
    }
}

pub fn read_heading(s: &[u8]) -> HeadingRead
    ensures { Passed plan_reading with_headings 1 s.now at_start result.next (headings_of result.headings result.relation result.chained result.chain)
        × (result.next.record ≤ result.next.at) × (result.headings ≤ 1) × (result.next.headed ≡ eqb result.headings 1) }
{
    let mut headings: usize = 0;
    let mut relation: u8 = 0;
    let mut chained = false;
    let mut chain: u8 = 0;
    let mut here = at_start();
    while here.at < s.len() {
        let at = here.at;
        if s[at] != 1 {
            break;
        }
        let HeadingSeen::Got(bits, named, cited, next) = heading_at(s, at + 1) else {
            return heading_read(refused(here, 1), headings, relation, chained, chain);
        };
        here.number = judged(headings, 1, bits & 1 == 1, true);
        if here.number != 0 {
            break;
        }
        headings = 1;
        here.headed = true;
        relation = named;
        chained = bits / 2 % 2 == 1;
        chain = cited;
        here.at = next;
        here.record = here.record + 1;
    }
    HeadingRead {
        next: here,
        headings: headings,
        relation: relation,
        chained: chained,
        chain: chain,
    }
}
