// Step 2: Base components of more than two persons that are no cliques.
ghost use Rattle.std.specs.Prelude.{◌≡◌, ℕ, ◌<◌};
ghost use Rattle.sets.specs.paper.Sets.{has, one, union, only, union_of, members};
ghost use Rattle.worlds.specs.code.Over.{entry};
ghost use Rattle.worlds.specs.code.Discretion.{near, clique_by, loose_by, Component, HeadsBy, Renewed, LooseParts};

use crate::over::{gather, give};
use sets::members::Members;
use sets::persons::person_mask;
use sets::{low, minus, others, subset};

// At each person the ends of these edges that hold the person.
fn neighbours(pairs: &[u64; 64], edges: u64) -> [u64; 64]
    ensures { (p : ℕ) → entry result p ≡ near pairs.now edges p }
{
    let mut lead = [0u64; 64];
    for e in Members(edges) {
        give(&mut lead, pairs[e], pairs[e]);
    }
    lead
}

// Whether everybody of a set is led to everybody else of it by an edge.
fn is_edge_clique(lead: &[u64; 64], set: u64) -> bool
    ensures { result ≡ clique_by (entry lead.now) set }
{
    for p in Members(set) {
        if !subset(set, person_mask(p as u8) | lead[p]) {
            return false;
        }
    }
    true
}

// More than two persons that are no clique.
fn loose(lead: &[u64; 64], set: u64) -> bool
    ensures { result ≡ loose_by (entry lead.now) set }
{
    u64::count_ones(set) > 2 && !is_edge_clique(lead, set)
}

// A person, and all to whom the person is led, also through others.
fn component(lead: &[u64; 64], p: usize) -> u64
    requires { p < 64 }
    ensures { Component lead.now p result }
{
    let mut part = person_mask(p as u8);
    loop {
        let next = part | gather(lead, part);
        if next == part {
            return part;
        }
        part = next;
    }
}

// The lowest persons of the components at discretion, and those of them whose component the table did not have yet.
#[derive(Drop)]
pub struct Parted {
    pub heads: u64,
    pub fresh: u64,
}

// The components of these persons that are at discretion, each put into the table at its lowest person. A turn takes a whole component.
fn heads(lead: &[u64; 64], persons: u64, parts: &mut [u64; 64]) -> Parted
    ensures heads { HeadsBy lead.now persons result.heads parts.new }
    ensures fresh { Renewed result.heads result.fresh parts.old parts.new }
{
    let mut found = 0;
    let mut fresh = 0;
    let mut m = persons;
    while m != 0 {
        let p = low(m);
        let class = component(lead, p);
        if loose(lead, class) {
            found |= person_mask(p as u8);
            if parts[p] != class {
                parts[p] = class;
                fresh |= person_mask(p as u8);
            }
        }
        m = minus(others(m), class);
    }
    Parted {
        heads: found,
        fresh,
    }
}

// The components by these edges that are at discretion, by their lowest persons.
pub fn loose_parts(pairs: &[u64; 64], edges: u64, parts: &mut [u64; 64]) -> Parted
    ensures parts { LooseParts pairs.now edges result.heads parts.new }
    ensures fresh { Renewed result.heads result.fresh parts.old parts.new }
{
    let persons = gather(pairs, edges);
    let lead = neighbours(pairs, edges);
    heads(&lead, persons, parts)
}
