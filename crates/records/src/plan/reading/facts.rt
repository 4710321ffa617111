// Facts: one record from its bit map on, and the pass over all of them.
ghost use Rattle.std.specs.Prelude.{◌≡◌, true, not, [], ◌≤◌, ◌+◌, ◌%◌, eqb, length};
ghost use Rattle.records.specs.paper.Plan as paper;
ghost use Rattle.records.specs.code.Readers.{map_read, bytes_from};
ghost use Rattle.records.specs.code.Passes.{raw_of, with_bits, Passed};
ghost use Rattle.records.specs.paper.Plan.{fact_bits, fact_from};
ghost use Rattle.records.specs.code.PlanPasses.{plan_reading, fact_read, fact_fits, with_facts};
ghost use Rattle.records.specs.code.Decoded.{if_given, fact_of, facts_of};

use crate::fields::judge::judged_fully;
use crate::fields::lists::tuple_from;
use crate::fields::passing::{Passing, refused};
use crate::fields::{Field, Listed, PERSON, byte_at, list_at, opt_at};
use crate::plan::checks::fact_order::fact_rises;
use crate::plan::{Fact, Facts};

// The bits, the family, where the tuple stands and how long it is, and the place after it.
#[derive(Drop)]
pub enum FactSeen {
    Got(u8, u8, usize, u8, usize),
    Bad,
}

pub fn fact_at(s: &[u8], at: usize) -> FactSeen
    ensures { (fact_read s.now result ≡ map_read (with_bits fact_from) (raw_of paper.plan_formats 2 s.now at)) × fact_fits s.now result }
{
    let Field::Got(bits, p) = byte_at(s, at, 0, 255) else {
        return FactSeen::Bad;
    };
    let Field::Got(family, p0) = opt_at(s, p, bits % 2 == 1, 0, 255) else {
        return FactSeen::Bad;
    };
    let Listed::Got(first, count, next) = list_at(s, p0, bits / 2 % 2 == 1, 4, PERSON) else {
        return FactSeen::Bad;
    };
    if bits / 4 == 0 {
        return FactSeen::Got(bits, family, first, count, next);
    }
    FactSeen::Bad
}

fn fact_from(s: &[u8], bits: u8, family: u8, first: usize, count: u8) -> Fact
    requires { (count ≤ 4) × (first + count ≤ length s.now) }
    ensures { (fact_of result ≡ record { family = if_given (eqb (bits % 2) 1) family; tuple = bytes_from s.now first count })
        × (result.count ≡ count) × (result.boolean ≡ not (eqb (bits % 2) 1)) }
{
    let tuple = tuple_from(s, first, count);
    Fact {
        boolean: bits % 2 != 1,
        family: family,
        count: count,
        tuple: tuple,
    }
}

#[derive(Drop)]
pub struct FactsRead {
    pub next: Passing,
    pub facts: Facts,
}

// A boolean fact, which any fact may follow.
fn no_fact() -> Fact
    ensures { (result.boolean ≡ true) × (result.count ≡ 0) }
{
    Fact {
        boolean: true,
        family: 0,
        count: 0,
        tuple: [0; 4],
    }
}

pub fn no_facts() -> Facts
    ensures { (facts_of result ≡ []) × (result.count ≡ 0) × (length result.items ≡ 64) }
{
    let blank = no_fact();
    Facts {
        count: 0,
        items: [blank; 64],
    }
}

pub fn read_facts(s: &[u8], from: Passing) -> FactsRead
    requires { from.record ≤ from.at }
    ensures { Passed plan_reading with_facts 2 s.now from result.next (facts_of result.facts)
        × (result.next.record ≤ result.next.at) × (result.next.headed ≡ from.headed) × (paper.facts_rise (facts_of result.facts) ≡ true) }
{
    let mut facts = no_facts();
    let mut last = no_fact();
    let mut here = from;
    while here.at < s.len() && here.number == 0 {
        let at = here.at;
        if s[at] != 2 {
            break;
        }
        let FactSeen::Got(bits, family, first, count, next) = fact_at(s, at + 1) else {
            return FactsRead {
                next: refused(here, 1),
                facts: facts,
            };
        };
        let n = facts.count;
        let fact = fact_from(s, bits, family, first, count);
        let rises = fact_rises(last, fact);
        here.number = judged_fully(n, 64, false, both_or_none(bits), from.headed, rises);
        if here.number != 0 {
            break;
        }
        facts.items[n] = fact;
        facts.count = n + 1;
        last = fact;
        here.at = next;
        here.record = here.record + 1;
    }
    FactsRead {
        next: here,
        facts: facts,
    }
}

// "Both bits or, for a boolean fact, neither"
fn both_or_none(bits: u8) -> bool
    ensures { result ≡ fact_bits bits }
{
    if bits == 3 {
        return true;
    }
    bits == 0
}
