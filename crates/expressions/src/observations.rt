// What a case says of a fact: its observations, and explicit unknown.
ghost use Rattle.std.specs.Prelude.{◌≡◌, not, ◌&&◌, ◌||◌, ◌++◌, map, ℕ, ◌<◌, length, get_or, take, eqb};
ghost use Rattle.sets.specs.paper.Sets.{has};
ghost use Rattle.records.specs.code.Decoded.{observations_of, boolean_of, relation_of};
ghost use Rattle.expressions.specs.paper.Bindings.{unknown_in, observed_in_booleans, observed_in_relations};
ghost use Rattle.expressions.specs.code.Sight.{nothing, look_at, look_all};

use records::case::{Booleans, Observations, Relations};
use sets::{bit, union};

// What was seen of a fact so far: the first pair of value and evidence, whether another pair came, whether another value did.
#[derive(Clone, Copy)]
pub struct Sight {
    pub any: bool,
    pub value: u8,
    pub evidence: u8,
    pub differs: bool,
    pub both: bool,
}

pub fn look(seen: Sight, value: u8, evidence: u8) -> Sight
    ensures { result ≡ look_at seen (record { value = value; evidence = evidence }) }
{
    if !seen.any {
        return Sight {
            any: true,
            value: value,
            evidence: evidence,
            differs: false,
            both: false,
        };
    }
    if value != seen.value {
        return Sight {
            any: true,
            value: seen.value,
            evidence: seen.evidence,
            differs: true,
            both: true,
        };
    }
    if evidence != seen.evidence {
        return Sight {
            any: true,
            value: seen.value,
            evidence: seen.evidence,
            differs: true,
            both: seen.both,
        };
    }
    seen
}

// The entry of a list of sixteen, 0 past its end.
pub fn entry(items: [u8; 16], i: u8) -> u8
    ensures { result ≡ get_or items i 0 }
{
    let at = i as usize;
    if at < 16 { items[at] } else { 0 }
}

pub fn look_all(seen: Sight, o: Observations) -> Sight
    ensures { result ≡ look_all seen (observations_of o) }
{
    let mut s = seen;
    let n = o.count;
    let values = o.values;
    let evidence = o.evidence;
    for i in 0..n {
        s = look(s, entry(values, i), entry(evidence, i));
    }
    s
}

// What was seen of each fact.
#[derive(Drop)]
pub struct Sights {
    pub items: [Sight; 64],
}

fn look_in_booleans(sights: Sights, booleans: Booleans) -> Sights
    ensures { (f : ℕ) → f < 64 → get_or result.items f nothing ≡ look_all (get_or sights.items f nothing) (observed_in_booleans (map boolean_of (take booleans.count booleans.items)) f) }
{
    let mut s = sights;
    let n = booleans.count.min(64);
    for i in 0..n {
        let b = booleans.items[i];
        let f = usize::from(b.fact);
        if f < 64 {
            let o = b.observations;
            let seen = s.items[f];
            let more = look_all(seen, o);
            s.items[f] = more;
        }
    }
    s
}

fn look_in_relations(sights: Sights, relations: Relations) -> Sights
    ensures { (f : ℕ) → f < 64 → get_or result.items f nothing ≡ look_all (get_or sights.items f nothing) (observed_in_relations (map relation_of (take relations.count relations.items)) f) }
{
    let mut s = sights;
    let n = relations.count.min(256);
    for i in 0..n {
        let r = relations.items[i];
        let f = usize::from(r.fact);
        if f < 64 {
            let seen = s.items[f];
            let more = look(seen, r.value, r.evidence);
            s.items[f] = more;
        }
    }
    s
}

// All that the case gives of each fact, in one pass over its records.
pub fn sights_of(booleans: Booleans, relations: Relations) -> Sights
    ensures { (f : ℕ) → f < 64 → get_or result.items f nothing ≡ look_all nothing (observed_in_booleans (map boolean_of (take booleans.count booleans.items)) f ++ observed_in_relations (map relation_of (take relations.count relations.items)) f) }
{
    let none = Sights {
        items: [Sight {
            any: false,
            value: 0,
            evidence: 0,
            differs: false,
            both: false,
        }; 64],
    };
    look_in_relations(look_in_booleans(none, booleans), relations)
}

// A number below 64 joins the others, where it is said to.
pub fn with_number(m: u64, number: u8, said: bool) -> u64
    ensures { (f : ℕ) → f < 64 → has result f ≡ (has m f || (eqb number f && said)) }
{
    if !said {
        return m;
    }
    if number >= 64 {
        return m;
    }
    union(m, bit(number))
}

// The facts that a boolean record says explicitly to be unknown.
pub fn said_unknown(booleans: Booleans) -> u64
    ensures { (f : ℕ) → f < 64 → has result f ≡ not (eqb (length (unknown_in (map boolean_of (take booleans.count booleans.items)) f)) 0) }
{
    let n = booleans.count.min(64);
    let mut m: u64 = 0;
    for i in 0..n {
        let b = booleans.items[i];
        m = with_number(m, b.fact, b.unknown);
    }
    m
}
