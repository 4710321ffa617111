// Constraints: one record from its bit map on, and the pass over all of them.
ghost use Rattle.std.specs.Prelude.{◌≡◌, [], ◌≤◌, ◌+◌, length};
ghost use Rattle.records.specs.paper.Case.{case_formats};
ghost use Rattle.records.specs.code.Readers.{map_read};
ghost use Rattle.records.specs.code.Passes.{raw_of, with_bits, Passed};
ghost use Rattle.records.specs.paper.Case.{constraint_from};
ghost use Rattle.records.specs.code.CasePasses.{case_reading, constraint_read, with_constraints};
ghost use Rattle.records.specs.code.Decoded.{constraints_of};

use crate::case::Constraints;
use crate::fields::judge::judged;
use crate::fields::passing::{Passing, refused};
use crate::fields::{Field, byte_at, opt_at};

// The bits, the node, and the place after it.
#[derive(Drop)]
pub enum ConstraintSeen {
    Got(u8, u8, usize),
    Bad,
}

pub fn constraint_at(s: &[u8], at: usize) -> ConstraintSeen
    ensures { constraint_read result ≡ map_read (with_bits constraint_from) (raw_of case_formats 5 s.now at) }
{
    let Field::Got(bits, p) = byte_at(s, at, 0, 255) else {
        return ConstraintSeen::Bad;
    };
    let Field::Got(node, next) = opt_at(s, p, bits % 2 == 1, 0, 255) else {
        return ConstraintSeen::Bad;
    };
    if bits / 2 == 0 {
        return ConstraintSeen::Got(bits, node, next);
    }
    ConstraintSeen::Bad
}

#[derive(Drop)]
pub struct ConstraintsRead {
    pub next: Passing,
    pub constraints: Constraints,
}

fn no_constraints() -> Constraints
    ensures { (constraints_of result ≡ []) × (result.count ≡ 0) × (length result.items ≡ 16) }
{
    Constraints {
        count: 0,
        items: [0; 16],
    }
}

pub fn read_constraints(s: &[u8], from: Passing) -> ConstraintsRead
    requires { from.record ≤ from.at }
    ensures { Passed case_reading with_constraints 5 s.now from result.next (constraints_of result.constraints)
        × (result.next.record ≤ result.next.at) × (result.next.headed ≡ from.headed) }
{
    let mut constraints = no_constraints();
    let mut here = from;
    while here.at < s.len() && here.number == 0 {
        let at = here.at;
        if s[at] != 5 {
            break;
        }
        let ConstraintSeen::Got(bits, node, next) = constraint_at(s, at + 1) else {
            return ConstraintsRead {
                next: refused(here, 1),
                constraints: constraints,
            };
        };
        let n = constraints.count;
        here.number = judged(n, 16, bits & 1 == 1, from.headed);
        if here.number != 0 {
            break;
        }
        constraints.items[n] = node;
        constraints.count = n + 1;
        here.at = next;
        here.record = here.record + 1;
    }
    ConstraintsRead {
        next: here,
        constraints: constraints,
    }
}
