// Whom a fact touches: the persons it names, the roster if a constraint uses it, and the persons of the rules that use it.
ghost use Rattle.std.specs.Prelude.{◌≡◌, length, take};
ghost use Rattle.sets.specs.paper.Sets.{union, union_of, set_of, All};
ghost use Rattle.records.specs.code.Decoded.{fact_of, facts_of};
ghost use Rattle.expressions.specs.code.Coded.{Holds, TupleFits};
ghost use Rattle.expressions.specs.code.Listed.{used_at, users_in, touched_by, touches_by};

use crate::uses::used_by;
use records::case::Constraints;
use records::plan::{Fact, Facts, Numbers};
use sets::persons::person_mask;
use sets::{contains, union};

// The facts that the constraints use.
pub fn constraint_uses(constraints: Constraints, nodes: &[u64; 256]) -> u64
    ensures { result ≡ union_of (used_at nodes.now) (take constraints.count constraints.items) }
{
    let items = constraints.items;
    let used = Numbers {
        count: constraints.count.min(16) as u8,
        items,
    };
    used_by(used, nodes)
}

// Only facts that a condition, defeater or constraint uses are bound.
pub fn bound_facts(uses: &[u64], constraints: u64) -> u64
    ensures { result ≡ union constraints (union_of (λ u. u) uses.now) }
{
    uses.iter().fold(constraints, |m, &u| union(m, u))
}

// All persons of rules that use the fact.
fn users(uses: &[u64], persons: &[u64], f: u8) -> u64
    requires { length uses.now ≡ length persons.now }
    ensures { result ≡ users_in f uses.now persons.now }
{
    uses.iter().zip(persons).fold(
        0,
        |m, (&u, &p)| if contains(u, f) { union(m, p) } else { m },
    )
}

// The persons that a fact names.
fn named_persons(fact: Fact) -> u64
    requires { TupleFits (fact_of fact) }
    ensures { result ≡ set_of (fact_of fact).tuple }
{
    fact.tuple[..usize::from(fact.count).min(4)]
        .iter()
        .map(|&p| person_mask(p))
        .fold(0, union)
}

pub fn touched(
    fact: Fact,
    f: u8,
    uses: &[u64],
    persons: &[u64],
    constraints: u64,
    roster: u64,
) -> u64
    requires { TupleFits (fact_of fact) × (length uses.now ≡ length persons.now) }
    ensures { result ≡ touched_by uses.now persons.now constraints roster f (fact_of fact) }
{
    let by_constraints = if contains(constraints, f) { roster } else { 0 };
    union(
        named_persons(fact),
        union(by_constraints, users(uses, persons, f)),
    )
}

// Whom each fact touches; nobody for a fact that is not bound.
pub fn touches(
    facts: Facts,
    uses: &[u64],
    persons: &[u64],
    constraints: u64,
    roster: u64,
    bound: u64,
) -> [u64; 64]
    requires { All TupleFits (facts_of facts) × (length uses.now ≡ length persons.now) }
    ensures { Holds 0 result (touches_by uses.now persons.now constraints roster bound (facts_of facts)) }
{
    let mut out = [0u64; 64];
    for i in 0..facts.count.min(64) {
        let f = i as u8;
        out[i] = if contains(bound, f) {
            touched(facts.items[i], f, uses, persons, constraints, roster)
        } else {
            0
        };
    }
    out
}
