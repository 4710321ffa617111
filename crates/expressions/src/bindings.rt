// The binding of each fact, as a number: 0 unbound, 1 known false, 2 known true, 3 unknown, 4 conflict of false, 5 conflict of true, 6 conflict of both.
// What case and plan tell of the facts is gathered by fact first, so that a binding looks at no table.
ghost use Rattle.std.specs.Prelude.{◌≡◌, not, List, [], ◌∷◌, map, ℕ, eqb, length, get_or, take};
ghost use Rattle.records.specs.paper.Case.{case_heading};
ghost use Rattle.records.specs.code.Decoded.{plan_of, case_of, election_of, family_of};
ghost use Rattle.expressions.specs.paper.Bindings.{by_default, default_of, scoped, bindings_by, binding_at};
ghost use Rattle.expressions.specs.code.Sight.{bound_by};
ghost use Rattle.expressions.specs.code.Codes.{bound_of, silent_code};
ghost use Rattle.expressions.specs.code.Told.{boolean_by, relation_by, binding_from, default_from, BindsFacts};

use crate::elections::election_policies;
use crate::observations::{Sight, said_unknown, sights_of};
use records::case::{Case, Families};
use records::plan::{Election, Fact, Plan};
use sets::{bit, contains, union};

// What is told of a fact: its observations, whether it is said to be unknown, the first election on it.
#[derive(Clone, Copy)]
pub struct Told {
    pub seen: Sight,
    pub unknown: bool,
    pub election: Election,
}

// The binding of each fact, and the facts that took their election's default.
#[derive(Drop)]
pub struct Bound {
    pub codes: [u8; 64],
    pub defaults: u64,
}

// What was seen decides; where nothing was, what is said beside it.
fn weigh(seen: Sight, silent: u8) -> u8
    ensures { bound_of result ≡ bound_by seen (bound_of silent) }
{
    if !seen.any {
        return silent;
    }
    if seen.differs {
        if seen.both {
            return 6;
        }
        if seen.value == 1 {
            return 5;
        }
        return 4;
    }
    if seen.value == 1 {
        return 2;
    }
    1
}

fn by_default(e: Election) -> u8
    ensures { bound_of result ≡ by_default (default_of (election_of e)) }
{
    if !e.given {
        return 3;
    }
    if e.policy == 1 {
        return 1;
    }
    if e.policy == 2 {
        return 2;
    }
    3
}

// Explicit unknown first, then what was seen, then an election's default.
fn bound_boolean(told: Told) -> u8
    ensures { bound_of result ≡ boolean_by told }
{
    let seen = told.seen;
    let election = told.election;
    let silent = by_default(election);
    if told.unknown { 3 } else { weigh(seen, silent) }
}

// The roster's scope, 0 where there is no heading.
fn scope_of(case: Case) -> u8
    ensures { result ≡ (case_heading (case_of case)).scope }
{
    let h = case.heading;
    if case.headings == 0 { 0 } else { h.scope }
}

// What no observation means: nothing (0) without a family in scope, else unknown, or known false where the family is complete.
fn silence(families: Families, number: u8, scope: u8) -> u8
    ensures { result ≡ silent_code (scoped (number ∷ []) scope (map family_of (take families.count families.items))) }
{
    let n = families.count.min(16);
    for i in 0..n {
        let m = families.items[i];
        if m.number == number && m.scope == scope {
            if m.complete {
                return 1;
            }
            return 3;
        }
    }
    0
}

fn bound_relation(seen: Sight, silent: u8) -> u8
    ensures { bound_of result ≡ relation_by silent seen }
{
    if silent == 0 {
        return 3;
    }
    weigh(seen, silent)
}

// The binding of a fact by what is told of it; 0 for one that is not bound.
fn binding(bound: bool, fact: Fact, told: Told, families: Families, scope: u8) -> u8
    ensures { bound_of result ≡ binding_from bound fact told (map family_of (take families.count families.items)) scope }
{
    let seen = told.seen;
    if !bound {
        return 0;
    }
    if fact.boolean {
        return bound_boolean(told);
    }
    bound_relation(seen, silence(families, fact.family, scope))
}

fn has_default(e: Election) -> bool
    ensures { result ≡ not (eqb (length (default_of (election_of e))) 0) }
{
    if !e.given {
        return false;
    }
    if e.policy == 1 {
        return true;
    }
    e.policy == 2
}

// Whether a bound fact of which the case says nothing has an election's default.
fn takes_default(bound: bool, fact: Fact, told: Told) -> bool
    ensures { result ≡ default_from bound fact told }
{
    let seen = told.seen;
    let election = told.election;
    if !bound {
        return false;
    }
    if !fact.boolean {
        return false;
    }
    if told.unknown {
        return false;
    }
    if seen.any {
        return false;
    }
    has_default(election)
}

// All bindings (0 past the last fact) and the facts that took their default, where `set` has the facts to bind.
pub fn bind_facts(plan: Plan, case: Case, set: u64) -> Bound
    ensures { BindsFacts (plan_of plan) (case_of case) set result }
{
    let facts = plan.facts;
    let families = case.families;
    let booleans = case.booleans;
    let relations = case.relations;
    let cuts = plan.cuts;
    let attachments = plan.attachments;
    let scope = scope_of(case);
    let sights = sights_of(booleans, relations);
    let unknown = said_unknown(booleans);
    let elections = election_policies(cuts, attachments);
    let mut codes = [0u8; 64];
    let mut defaults: u64 = 0;
    let n = facts.count.min(64);
    for i in 0..n {
        let k = i as u8;
        let fact = facts.items[i];
        let seen = sights.items[i];
        let election = elections.items[i];
        let bound = contains(set, k);
        let told = Told {
            seen: seen,
            unknown: contains(unknown, k),
            election: election,
        };
        codes[i] = binding(bound, fact, told, families, scope);
        if takes_default(bound, fact, told) {
            defaults = union(defaults, bit(k));
        }
    }
    Bound {
        codes: codes,
        defaults: defaults,
    }
}

// The binding of each fact; 0 past the last.
pub fn bindings(plan: Plan, case: Case, set: u64) -> [u8; 64]
    ensures { (f : ℕ) → bound_of (get_or result f 0) ≡ binding_at (bindings_by (plan_of plan) (case_of case) set) f }
{
    let found = bind_facts(plan, case, set);
    found.codes
}
