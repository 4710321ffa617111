// Relations: one record from its bit map on, and the pass over all of them.
ghost use Rattle.std.specs.Prelude.{◌≡◌, [], ◌≤◌, ◌+◌, length};
ghost use Rattle.records.specs.paper.Case.{case_formats};
ghost use Rattle.records.specs.code.Readers.{map_read};
ghost use Rattle.records.specs.code.Passes.{raw_of, with_bits, Passed};
ghost use Rattle.records.specs.paper.Case.{relation_from};
ghost use Rattle.records.specs.code.CasePasses.{case_reading, relation_read, with_relations};
ghost use Rattle.records.specs.code.Decoded.{relations_of};

use crate::case::{Relation, Relations};
use crate::fields::judge::judged;
use crate::fields::passing::{Passing, refused};
use crate::fields::{EVIDENCE, Field, byte_at, opt_at};

// The bits, the relation, and the place after it.
#[derive(Drop)]
pub enum RelationSeen {
    Got(u8, Relation, usize),
    Bad,
}

pub fn relation_at(s: &[u8], at: usize) -> RelationSeen
    ensures { relation_read result ≡ map_read (with_bits relation_from) (raw_of case_formats 4 s.now at) }
{
    let Field::Got(bits, p) = byte_at(s, at, 0, 255) else {
        return RelationSeen::Bad;
    };
    let Field::Got(fact, p0) = opt_at(s, p, bits % 2 == 1, 0, 255) else {
        return RelationSeen::Bad;
    };
    let Field::Got(value, p1) = opt_at(s, p0, bits / 2 % 2 == 1, 0, 1) else {
        return RelationSeen::Bad;
    };
    let Field::Got(evidence, next) = opt_at(s, p1, bits / 4 % 2 == 1, 0, EVIDENCE) else {
        return RelationSeen::Bad;
    };
    if bits / 8 == 0 {
        let relation = Relation {
            fact: fact,
            value: value,
            evidence: evidence,
        };
        return RelationSeen::Got(bits, relation, next);
    }
    RelationSeen::Bad
}

#[derive(Drop)]
pub struct RelationsRead {
    pub next: Passing,
    pub relations: Relations,
}

fn no_relations() -> Relations
    ensures { (relations_of result ≡ []) × (result.count ≡ 0) × (length result.items ≡ 256) }
{
    let blank = Relation {
        fact: 0,
        value: 0,
        evidence: 0,
    };
    Relations {
        count: 0,
        items: [blank; 256],
    }
}

pub fn read_relations(s: &[u8], from: Passing) -> RelationsRead
    requires { from.record ≤ from.at }
    ensures { Passed case_reading with_relations 4 s.now from result.next (relations_of result.relations)
        × (result.next.record ≤ result.next.at) × (result.next.headed ≡ from.headed) }
{
    let mut relations = no_relations();
    let mut here = from;
    while here.at < s.len() && here.number == 0 {
        let at = here.at;
        if s[at] != 4 {
            break;
        }
        let RelationSeen::Got(bits, relation, next) = relation_at(s, at + 1) else {
            return RelationsRead {
                next: refused(here, 1),
                relations: relations,
            };
        };
        let n = relations.count;
        here.number = judged(n, 256, bits & 7 == 7, from.headed);
        if here.number != 0 {
            break;
        }
        relations.items[n] = relation;
        relations.count = n + 1;
        here.at = next;
        here.record = here.record + 1;
    }
    RelationsRead {
        next: here,
        relations: relations,
    }
}
