// What binding finds, under C names: no operation of document 01, but what comparisons of the proved code with other programs look into.
#![tactic(auto)]

mod bind;
mod code;
mod refusal;
mod variables;

ghost use Rattle.std.specs.Prelude.{◌≡◌, length, get_or};
ghost use Rattle.probes.specs.Entries.{refusal_number, record_of, code_of, binding_in, influences, variables, worlds_counted, case_refusal};

use bind::{bind, set_at};
use code::told_code;
use records::plan::checks::naming::entry;
use variables::{list_variables, variable_at};

// How a case binds a fact, as a code: 0 not bound, and for every fact where plan or case is not read; 1 known false, 2 known true, 3 unknown,
// 4 a conflict of false, 5 of true, 6 of both.
#[unsafe(no_mangle)]
#[tactic(auto, unfolding(crate::specs::Entries::binding_in))]
pub extern "C" fn lukhveri_binding(plan: &[u8], case: &[u8], fact: usize) -> u8
    ensures { result ≡ code_of (binding_in plan.now case.now fact) }
{
    told_code(entry(bind(plan, case).codes, fact))
}

// The influence of a fact by its number, or of a decision behind the facts: nobody for what is no variable.
#[unsafe(no_mangle)]
#[tactic(auto, unfolding(crate::specs::Entries::influences))]
pub extern "C" fn lukhveri_influence(plan: &[u8], case: &[u8], number: usize) -> u64
    ensures { result ≡ get_or (influences plan.now case.now) number 0 }
{
    set_at(bind(plan, case).influence, number)
}

// How many variables there are: none where plan or case is not read.
#[unsafe(no_mangle)]
pub extern "C" fn lukhveri_variables(plan: &[u8], case: &[u8]) -> usize
    ensures { result ≡ length (variables plan.now case.now) }
{
    list_variables(plan, case).count
}

// The variable of that place in document 01's order: in the low byte a fact's number or a decision's number and 64, in the next its
// candidates, 1 false, 2 true, 3 both; 0 past the last.
#[unsafe(no_mangle)]
pub extern "C" fn lukhveri_variable(plan: &[u8], case: &[u8], place: usize) -> u16
    ensures { result ≡ get_or (variables plan.now case.now) place 0 }
{
    variable_at(list_variables(plan, case), place)
}

// The count of worlds before constraints; behind the reference the heading's maximum; both 2^64 − 1 from 2^64 worlds on, and 0 where plan or
// case is not read.
#[unsafe(no_mangle)]
#[tactic(auto, unfolding(crate::specs::Entries::worlds_counted))]
pub extern "C" fn lukhveri_worlds(plan: &[u8], case: &[u8], maximum: &mut u64) -> u64
    ensures { (result ≡ (worlds_counted plan.now case.now).count) × (maximum.new ≡ (worlds_counted plan.now case.now).maximum) }
{
    let count = bind(plan, case).count;
    *maximum = count.maximum;
    count.count
}

// The first refusal of plan and case up to 5, 10 and 11, but for 8, 9 and 12: its number, 0 for none. The record goes behind the reference.
#[unsafe(no_mangle)]
#[tactic(auto, unfolding(crate::specs::Entries::case_refusal))]
pub extern "C" fn lukhveri_bindable(plan: &[u8], case: &[u8], place: &mut u64) -> u8
    ensures { (result ≡ refusal_number (case_refusal plan.now case.now)) × (place.new ≡ record_of (case_refusal plan.now case.now)) }
{
    let refusal = bind(plan, case).refusal;
    *place = refusal.place as u64;
    refusal.number
}
