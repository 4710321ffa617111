// Booleans: one record from its bit map on, and the pass over all of them.
ghost use Rattle.std.specs.Prelude.{◌≡◌, [], ◌≤◌, ◌+◌, ◌*◌, ◌/◌, ◌%◌, length, eqb};
ghost use Rattle.records.specs.paper.Case.{case_formats};
ghost use Rattle.records.specs.code.Readers.{map_read, bytes_from};
ghost use Rattle.records.specs.code.Passes.{raw_of, with_bits, Passed};
ghost use Rattle.records.specs.paper.Case.{boolean_from, observations_from};
ghost use Rattle.records.specs.code.CasePasses.{case_reading, boolean_read, boolean_fits, with_booleans};
ghost use Rattle.records.specs.code.Decoded.{if_given, boolean_of, booleans_of};

use crate::case::{Boolean, Booleans, Observations};
use crate::fields::judge::judged;
use crate::fields::lists::observations_from;
use crate::fields::passing::{Passing, refused};
use crate::fields::{EVIDENCE, Field, Listed, byte_at, opt_at, pairs_at};

// The bits, the fact, the evidence of its being unknown, where the observations stand and how many there are, and the place after them.
#[derive(Drop)]
pub enum BooleanSeen {
    Got(u8, u8, u8, usize, u8, usize),
    Bad,
}

pub fn boolean_at(s: &[u8], at: usize) -> BooleanSeen
    ensures { (boolean_read s.now result ≡ map_read (with_bits boolean_from) (raw_of case_formats 3 s.now at)) × boolean_fits s.now result }
{
    let Field::Got(bits, p) = byte_at(s, at, 0, 255) else {
        return BooleanSeen::Bad;
    };
    let Field::Got(fact, p0) = opt_at(s, p, bits % 2 == 1, 0, 255) else {
        return BooleanSeen::Bad;
    };
    let Field::Got(evidence, p1) = opt_at(s, p0, bits / 2 % 2 == 1, 0, EVIDENCE) else {
        return BooleanSeen::Bad;
    };
    let Listed::Got(first, count, next) = pairs_at(s, p1, bits / 4 % 2 == 1, 16, 1, 0, EVIDENCE)
    else {
        return BooleanSeen::Bad;
    };
    if bits / 8 == 0 {
        return BooleanSeen::Got(bits, fact, evidence, first, count, next);
    }
    BooleanSeen::Bad
}

fn boolean_from(s: &[u8], bits: u8, fact: u8, evidence: u8, first: usize, count: u8) -> Boolean
    requires { (count ≤ 16) × (first + count * 2 ≤ length s.now) }
    ensures { boolean_of result ≡ record { fact = fact; unknown = if_given (eqb (bits / 2 % 2) 1) evidence; observations = observations_from (bytes_from s.now first (count * 2)) } }
{
    let observations = observations_from(s, first, count);
    Boolean {
        fact: fact,
        unknown: bits / 2 % 2 == 1,
        evidence: evidence,
        observations: observations,
    }
}

#[derive(Drop)]
pub struct BooleansRead {
    pub next: Passing,
    pub booleans: Booleans,
}

fn no_booleans() -> Booleans
    ensures { (booleans_of result ≡ []) × (result.count ≡ 0) × (length result.items ≡ 64) }
{
    let none = Observations {
        count: 0,
        values: [0; 16],
        evidence: [0; 16],
    };
    let blank = Boolean {
        fact: 0,
        unknown: false,
        evidence: 0,
        observations: none,
    };
    Booleans {
        count: 0,
        items: [blank; 64],
    }
}

pub fn read_booleans(s: &[u8], from: Passing) -> BooleansRead
    requires { from.record ≤ from.at }
    ensures { Passed case_reading with_booleans 3 s.now from result.next (booleans_of result.booleans)
        × (result.next.record ≤ result.next.at) × (result.next.headed ≡ from.headed) }
{
    let mut booleans = no_booleans();
    let mut here = from;
    while here.at < s.len() && here.number == 0 {
        let at = here.at;
        if s[at] != 3 {
            break;
        }
        let BooleanSeen::Got(bits, fact, evidence, first, count, next) = boolean_at(s, at + 1)
        else {
            return BooleansRead {
                next: refused(here, 1),
                booleans: booleans,
            };
        };
        let n = booleans.count;
        here.number = judged(n, 64, bits & 1 == 1, from.headed);
        if here.number != 0 {
            break;
        }
        booleans.items[n] = boolean_from(s, bits, fact, evidence, first, count);
        booleans.count = n + 1;
        here.at = next;
        here.record = here.record + 1;
    }
    BooleansRead {
        next: here,
        booleans: booleans,
    }
}
