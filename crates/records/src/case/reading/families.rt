// Families: one record from its bit map on, and the pass over all of them.
ghost use Rattle.std.specs.Prelude.{◌≡◌, [], ◌≤◌, ◌+◌, length};
ghost use Rattle.records.specs.paper.Case.{case_formats};
ghost use Rattle.records.specs.code.Readers.{map_read};
ghost use Rattle.records.specs.code.Passes.{raw_of, with_bits, Passed};
ghost use Rattle.records.specs.paper.Case.{family_from};
ghost use Rattle.records.specs.code.CasePasses.{case_reading, family_read, with_families};
ghost use Rattle.records.specs.code.Decoded.{families_of};

use crate::case::{Families, Family};
use crate::fields::judge::judged;
use crate::fields::passing::{Passing, refused};
use crate::fields::{EVIDENCE, Field, byte_at, opt_at};

// The bits, the family, and the place after it.
#[derive(Drop)]
pub enum FamilySeen {
    Got(u8, Family, usize),
    Bad,
}

pub fn family_at(s: &[u8], at: usize) -> FamilySeen
    ensures { family_read result ≡ map_read (with_bits family_from) (raw_of case_formats 2 s.now at) }
{
    let Field::Got(bits, p) = byte_at(s, at, 0, 255) else {
        return FamilySeen::Bad;
    };
    let Field::Got(number, p0) = opt_at(s, p, bits % 2 == 1, 0, 255) else {
        return FamilySeen::Bad;
    };
    let Field::Got(scope, p1) = opt_at(s, p0, bits / 2 % 2 == 1, 0, 255) else {
        return FamilySeen::Bad;
    };
    let Field::Got(evidence, next) = opt_at(s, p1, bits / 4 % 2 == 1, 0, EVIDENCE) else {
        return FamilySeen::Bad;
    };
    if bits / 8 == 0 {
        let family = Family {
            number: number,
            scope: scope,
            complete: bits / 4 % 2 == 1,
            evidence: evidence,
        };
        return FamilySeen::Got(bits, family, next);
    }
    FamilySeen::Bad
}

#[derive(Drop)]
pub struct FamiliesRead {
    pub next: Passing,
    pub families: Families,
}

fn no_families() -> Families
    ensures { (families_of result ≡ []) × (result.count ≡ 0) × (length result.items ≡ 16) }
{
    let blank = Family {
        number: 0,
        scope: 0,
        complete: false,
        evidence: 0,
    };
    Families {
        count: 0,
        items: [blank; 16],
    }
}

pub fn read_families(s: &[u8], from: Passing) -> FamiliesRead
    requires { from.record ≤ from.at }
    ensures { Passed case_reading with_families 2 s.now from result.next (families_of result.families)
        × (result.next.record ≤ result.next.at) × (result.next.headed ≡ from.headed) }
{
    let mut families = no_families();
    let mut here = from;
    while here.at < s.len() && here.number == 0 {
        let at = here.at;
        if s[at] != 2 {
            break;
        }
        let FamilySeen::Got(bits, family, next) = family_at(s, at + 1) else {
            return FamiliesRead {
                next: refused(here, 1),
                families: families,
            };
        };
        let n = families.count;
        here.number = judged(n, 16, bits & 1 == 1, from.headed);
        if here.number != 0 {
            break;
        }
        families.items[n] = family;
        families.count = n + 1;
        here.at = next;
        here.record = here.record + 1;
    }
    FamiliesRead {
        next: here,
        families: families,
    }
}
