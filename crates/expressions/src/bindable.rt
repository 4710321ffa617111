// Refusals 5 and 10 of a case: a family twice; per boolean explicit unknown beside observations, a fact twice. What stands twice is refused by its
// later record.
ghost use Rattle.std.specs.Prelude.{◌≡◌, ◌||◌, not, cond, List, [], map, ℕ, ◌<◌, eqb, length, take};
ghost use Rattle.sets.specs.paper.Sets.{any_of};
ghost use Rattle.records.specs.paper.Fields.{fine, first_fault};
ghost use Rattle.records.specs.code.Decoded.{case_of, family_of, boolean_of, observations_of};
ghost use Rattle.records.specs.code.Check.{checked_of};
ghost use Rattle.expressions.specs.paper.Bindings.{family_faults, boolean_faults, bindable as bindable_case};

use records::case::{Boolean, Booleans, Case, Families};
use records::checked::Checked;

// Whether a number is among these.
fn appears(numbers: &[u8], number: u8) -> bool
    ensures { result ≡ any_of (λ e. eqb e number) numbers.now }
{
    for i in 0..numbers.len() {
        if numbers[i] == number {
            return true;
        }
    }
    false
}

// `first`: the number of the first family record.
fn family_faults(families: Families, first: usize) -> Checked
    requires { first < 2 }
    ensures { result ≡ checked_of {A = ℕ} (first_fault first (family_faults [] (map family_of (take families.count families.items))) (fine 0)) }
{
    let n = families.count.min(16);
    let mut earlier = [0u8; 16];
    for i in 0..n {
        let m = families.items[i];
        if appears(&earlier[..i], m.number) {
            return Checked::Refused {
                number: 5,
                record: first + i,
            };
        }
        earlier[i] = m.number;
    }
    Checked::Accepted
}

// Whether explicit unknown stands beside observations.
fn clashes(b: Boolean) -> bool
    ensures { result ≡ not (eqb (length (boolean_of b).unknown) 0 || eqb (length (boolean_of b).observations) 0) }
{
    let o = b.observations;
    if b.unknown { o.count != 0 } else { false }
}

// The refusal of a boolean record, 0 for none: 10 where explicit unknown stands beside observations, only then 5 where the fact is there again.
fn fault_of(clash: bool, again: bool) -> u8
    ensures { result ≡ cond clash 10 (cond again 5 0) }
{
    if clash {
        10
    } else if again {
        5
    } else {
        0
    }
}

// `first`: the number of the first boolean record.
fn boolean_faults(booleans: Booleans, first: usize) -> Checked
    requires { first < 64 }
    ensures { result ≡ checked_of {A = ℕ} (first_fault first (boolean_faults [] (map boolean_of (take booleans.count booleans.items))) (fine 0)) }
{
    let n = booleans.count.min(64);
    let mut earlier = [0u8; 64];
    for i in 0..n {
        let b = booleans.items[i];
        let number = fault_of(clashes(b), appears(&earlier[..i], b.fact));
        if number != 0 {
            return Checked::Refused {
                number: number,
                record: first + i,
            };
        }
        earlier[i] = b.fact;
    }
    Checked::Accepted
}

pub fn bindable(case: Case) -> Checked
    ensures { result ≡ checked_of (bindable_case (case_of case)) }
{
    let families = case.families;
    let booleans = case.booleans;
    let first = case.headings.min(1);
    let before = first + families.count.min(16);
    let twice = family_faults(families, first);
    let Checked::Accepted = twice else {
        return twice;
    };
    boolean_faults(booleans, before)
}
