// Refusal 4 of a case: a boolean that names no boolean fact, a relation that names no relation fact or one without its family's record, a
// constraint that names no node. `set` has the facts that a record of the kind may name.
ghost use Rattle.std.specs.Prelude.{◌≡◌, ◌≤◌};
ghost use Rattle.sets.specs.paper.Sets.{any_of};
ghost use Rattle.records.specs.paper.Fields.{fine, first_fault};
ghost use Rattle.records.specs.paper.Case.{case_naming_faults, booleans_at};
ghost use Rattle.records.specs.code.Decoded.{plan_of, case_of, families_of};
ghost use Rattle.records.specs.code.Check.{checked_of};
ghost use Rattle.records.specs.code.CaseNamed.{CaseCountsOf, CaseCountLimits, same_family, RelationFacts, BooleansNamed, RelationsNamed, ConstraintsNamed};

use crate::case::{Booleans, Case, Constraints, Families, Relations};
use crate::checked::Checked;
use crate::plan::checks::naming::boolean_facts;
use crate::plan::counts::count_records;
use crate::plan::{Facts, Plan};
use sets::{bit, contains, union};

// How many records of each kind a case has, whatever its count fields say.
#[derive(Drop)]
pub struct CaseCounts {
    pub headings: usize,
    pub families: usize,
    pub booleans: usize,
    pub relations: usize,
    pub constraints: usize,
}

pub fn count_case(case: Case) -> CaseCounts
    ensures { CaseCountsOf (case_of case) result × CaseCountLimits result }
{
    CaseCounts {
        headings: case.headings.min(1),
        families: case.families.count.min(16),
        booleans: case.booleans.count.min(64),
        relations: case.relations.count.min(256),
        constraints: case.constraints.count.min(16),
    }
}

pub fn has_family(families: Families, number: u8) -> bool
    ensures { result ≡ any_of (same_family number) (families_of families) }
{
    let count = families.count.min(16);
    for i in 0..count {
        if families.items[i].number == number {
            return true;
        }
    }
    false
}

// The facts that a relation record may name, as a set: the relation facts whose family has a record.
pub fn relation_facts(facts: Facts, families: Families) -> u64
    ensures { RelationFacts facts families result }
{
    let count = facts.count.min(64);
    let mut m: u64 = 0;
    for k in 0..count {
        let fact = facts.items[k];
        if !fact.boolean && has_family(families, fact.family) {
            m = union(m, bit(k as u8));
        }
    }
    m
}

fn boolean_faults(set: u64, booleans: Booleans, first: usize) -> Checked
    requires { first ≤ 1000 }
    ensures { BooleansNamed set booleans first result }
{
    let count = booleans.count.min(64);
    for k in 0..count {
        if !contains(set, booleans.items[k].fact) {
            return Checked::Refused {
                number: 4,
                record: first + k,
            };
        }
    }
    Checked::Accepted
}

fn relation_faults(set: u64, relations: Relations, first: usize) -> Checked
    requires { first ≤ 1000 }
    ensures { RelationsNamed set relations first result }
{
    let count = relations.count.min(256);
    for k in 0..count {
        if !contains(set, relations.items[k].fact) {
            return Checked::Refused {
                number: 4,
                record: first + k,
            };
        }
    }
    Checked::Accepted
}

fn constraint_faults(nodes: usize, constraints: Constraints, first: usize) -> Checked
    requires { first ≤ 1000 }
    ensures { ConstraintsNamed nodes constraints first result }
{
    let count = constraints.count.min(16);
    for k in 0..count {
        if usize::from(constraints.items[k]) >= nodes {
            return Checked::Refused {
                number: 4,
                record: first + k,
            };
        }
    }
    Checked::Accepted
}

// Kind by kind, the first record that names what is not there.
pub fn case_naming(plan: Plan, case: Case) -> Checked
    ensures { result ≡ checked_of (first_fault (booleans_at (case_of case)) (case_naming_faults (plan_of plan) (case_of case)) (fine (case_of case))) }
{
    let facts = plan.facts;
    let families = case.families;
    let boolean_set = boolean_facts(facts);
    let relation_set = relation_facts(facts, families);
    let nodes = count_records(plan).nodes;
    let counts = count_case(case);
    let at_booleans = counts.headings + counts.families;
    let booleans = case.booleans;
    let a = boolean_faults(boolean_set, booleans, at_booleans);
    let Checked::Accepted = a else {
        return a;
    };
    let at_relations = at_booleans + counts.booleans;
    let relations = case.relations;
    let b = relation_faults(relation_set, relations, at_relations);
    let Checked::Accepted = b else {
        return b;
    };
    let constraints = case.constraints;
    constraint_faults(nodes, constraints, at_relations + counts.relations)
}
