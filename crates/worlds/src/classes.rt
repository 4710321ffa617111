// Persons in classes: at each person of a table the set of all who are joined to that person.
ghost use Rattle.std.specs.Prelude.{◌≡◌, ℕ, ◌<◌, get_or, [], ◌∷◌, map};
ghost use Rattle.sets.specs.paper.Sets.{one, close_of, members};
ghost use Rattle.worlds.specs.code.Over.{entry};
ghost use Rattle.worlds.specs.code.Classes.{Alone, Joins, joinable};

use crate::over::{gather, put};
use sets::members::Members;
use sets::persons::person_masks;
use sets::{low, subset};

// Each person of a set alone, and nobody at the others. As the whole sheet is taken at once, the compiler needs no look-up for a person.
pub fn alone(classes: &mut [u64; 64], persons: u64)
    ensures { Alone persons classes.new }
{
    let masks = person_masks();
    for p in 0..64 {
        classes[p] = masks[p] & persons;
    }
}

// The classes that a set meets become one.
pub fn join(classes: &mut [u64; 64], set: u64)
    ensures { Joins (set ∷ []) classes.old classes.new }
{
    if set != 0 && !subset(set, classes[low(set)]) {
        let whole = gather(classes, set);
        put(classes, whole, whole);
    }
}

// The pairs of these edges that lie within a set of persons join their classes.
pub fn join_pairs(classes: &mut [u64; 64], pairs: &[u64; 64], edges: u64, within: u64)
    ensures { Joins (map (joinable pairs.now within) (members edges)) classes.old classes.new }
{
    for e in Members(edges) {
        let pair = pairs[e];
        if subset(pair, within) {
            join(classes, pair);
        }
    }
}

// The classes of all persons by a list of sets.
pub fn classes_of(sets: &[u64]) -> [u64; 64]
    ensures { (p : ℕ) → p < 64 → entry result p ≡ close_of sets.now (one p) }
{
    let mut classes = [0u64; 64];
    alone(&mut classes, u64::MAX);
    for &set in sets {
        join(&mut classes, set);
    }
    classes
}
