// The evidence that a case gives for each fact, bound or not.
ghost use Rattle.std.specs.Prelude.{◌≡◌, map, ℕ, eqb, get_or, take};
ghost use Rattle.sets.specs.paper.Sets.{one, union, only, union_of, All};
ghost use Rattle.records.specs.promises.Sound.{Evidence};
ghost use Rattle.records.specs.code.Decoded.{observations_of, boolean_of, relation_of, case_of};
ghost use Rattle.expressions.specs.code.Evident.{evidence_mark, boolean_evidence, Evident, EvidentBoolean, EvidentRelation, ReadCase, EvidenceBy};

use crate::observations::entry;
use records::case::{Boolean, Booleans, Case, Observations, Relations};
use sets::{bit, union};

fn mark(m: u64, e: u8) -> u64
    requires { Evidence e }
    ensures { result ≡ union m (one e) }
{
    union(m, bit(e))
}

fn mark_all(m: u64, o: Observations) -> u64
    requires { All Evident (observations_of o) }
    ensures { result ≡ union m (union_of evidence_mark (observations_of o)) }
{
    let mut all = m;
    let n = o.count;
    for i in 0..n {
        let evidence = o.evidence;
        all = mark(all, entry(evidence, i));
    }
    all
}

// All evidence of a boolean record.
fn evidence_in(b: Boolean) -> u64
    requires { EvidentBoolean (boolean_of b) }
    ensures { result ≡ boolean_evidence (boolean_of b) }
{
    let o = b.observations;
    let seen = mark_all(0, o);
    if b.unknown {
        mark(seen, b.evidence)
    } else {
        seen
    }
}

// More evidence for a fact.
fn note(table: &mut [u64; 256], fact: u8, more: u64)
    ensures { (f : ℕ) → get_or table.new f 0 ≡ union (get_or table.old f 0) (only (eqb fact f) more) }
{
    let f = usize::from(fact);
    let m = union(table[f], more);
    table[f] = m;
}

fn note_booleans(table: &mut [u64; 256], booleans: Booleans)
    requires { All EvidentBoolean (map boolean_of (take booleans.count booleans.items)) }
    ensures { (f : ℕ) → get_or table.new f 0 ≡ union (get_or table.old f 0) (union_of (λ b. only (eqb b.fact f) (boolean_evidence b)) (map boolean_of (take booleans.count booleans.items))) }
{
    let n = booleans.count.min(64);
    for i in 0..n {
        let b = booleans.items[i];
        let more = evidence_in(b);
        note(table, b.fact, more);
    }
}

fn note_relations(table: &mut [u64; 256], relations: Relations)
    requires { All EvidentRelation (map relation_of (take relations.count relations.items)) }
    ensures { (f : ℕ) → get_or table.new f 0 ≡ union (get_or table.old f 0) (union_of (λ r. only (eqb r.fact f) (evidence_mark r.observation)) (map relation_of (take relations.count relations.items))) }
{
    let n = relations.count.min(256);
    for i in 0..n {
        let r = relations.items[i];
        let more = mark(0, r.evidence);
        note(table, r.fact, more);
    }
}

// The evidence of each fact, in one pass over the case's records.
pub fn evidence_by_fact(case: Case) -> [u64; 256]
    requires { ReadCase (case_of case) }
    ensures { EvidenceBy (case_of case) result }
{
    let booleans = case.booleans;
    let relations = case.relations;
    let mut table = [0u64; 256];
    note_booleans(&mut table, booleans);
    note_relations(&mut table, relations);
    table
}
