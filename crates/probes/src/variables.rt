// The variables of a case, in order, each as a number.
ghost use Rattle.std.specs.Prelude.{◌≡◌, [], ◌∷◌, ◌++◌, map, ◌+◌, ◌<◌, length, get_or};
ghost use Rattle.expressions.specs.code.Codes.{bound_of};
ghost use Rattle.expressions.specs.code.Slots.{slot_of, slots_of};
ghost use Rattle.probes.specs.Entries.{varies as varies_in, variable_code, variable_codes, variables};
ghost use Rattle.probes.specs.Binds.{codes_of};

use crate::bind::bind;
use expressions::slots::{Slots, candidates};

#[derive(Drop)]
pub struct Variables {
    pub count: usize,
    pub items: [u16; 80],
}

#[tactic(auto, unfolding(crate::specs::Binds::codes_of))]
fn add(mut known: Variables, item: u16) -> Variables
    requires { known.count < 80 }
    ensures { (result.count ≡ known.count + 1) × (codes_of result ≡ codes_of known ++ (item ∷ [])) }
{
    known.items[known.count] = item;
    known.count += 1;
    known
}

// Whether it is a variable: a decision, or a fact whose binding's code is from 3 on.
fn varies(codes: [u8; 64], item: u8) -> bool
    ensures { result ≡ varies_in (map bound_of codes) (slot_of item) }
{
    let at = usize::from(item);
    at >= 64 || codes[at] >= 3
}

// Which it is and, in the next byte, its candidates.
fn coded(codes: [u8; 64], item: u8) -> u16
    ensures { result ≡ variable_code (map bound_of codes) (slot_of item) }
{
    let at = usize::from(item);
    let choice = if at < 64 { candidates(codes[at]) } else { 3 };
    u16::from(item) + 256 * u16::from(choice)
}

// The variables among what a world gives values to.
fn among(order: Slots, codes: [u8; 64]) -> Variables
    ensures { (result.count ≡ length (codes_of result)) × (codes_of result ≡ variable_codes (map bound_of codes) (slots_of order)) }
{
    let mut out = Variables {
        count: 0,
        items: [0; 80],
    };
    for &item in &order.items[..order.count.min(80)] {
        if varies(codes, item) {
            out = add(out, coded(codes, item));
        }
    }
    out
}

#[tactic(auto, using(crate::proofs::VariableLaws::variables_in_lem), unfolding(crate::specs::Entries::variables))]
pub fn list_variables(plan: &[u8], case: &[u8]) -> Variables
    ensures { (result.count ≡ length (codes_of result)) × (codes_of result ≡ variables plan.now case.now) }
{
    let found = bind(plan, case);
    among(found.order, found.codes)
}

// The k-th; 0 past the last.
#[tactic(auto, using(crate::proofs::Entering::taken_at, crate::proofs::Entering::taken_past, crate::proofs::Entering::taken_long), unfolding(crate::specs::Binds::codes_of))]
pub fn variable_at(known: Variables, k: usize) -> u16
    ensures { result ≡ get_or (codes_of known) k 0 }
{
    if k < known.count && k < 80 {
        known.items[k]
    } else {
        0
    }
}
