// The influence of facts and decisions: whom they touch, closed under the rules.
ghost use Rattle.std.specs.Prelude.{◌≡◌, ◌++◌, ℕ, ◌+◌, ◌<◌, ◌≤◌, leb, length, get_or, take};
ghost use Rattle.sets.specs.paper.Sets.{has, below};
ghost use Rattle.expressions.specs.code.Influences.{sets_of, closed_if, influence_by};

use crate::reach::Reach;
use sets::members::those;
use sets::{close, contains};

// The sets of the facts, then those of the unresolved decisions.
#[derive(Clone, Copy)]
pub struct Influence {
    pub count: usize,
    pub sets: [u64; 80],
}

// The closings of the sets of `touches` that are wanted by number, behind the first `at` of a list; nobody for the others.
fn close_each(known: &mut [u64; 80], at: usize, groups: &[u64], touches: &[u64], wanted: u64)
    requires { at + length touches.now ≤ 80 }
    ensures { take (at + length touches.now) known.new ≡ take at known.old ++ below (length touches.now) (closed_if groups.now wanted touches.now) }
{
    for i in 0..touches.len() {
        known[at + i] = if contains(wanted, i as u8) {
            close(groups, touches[i])
        } else {
            0
        };
    }
}

// The influence of each fact that is a variable, then of each unresolved decision.
pub fn influence_sets(reach: Reach, variables: u64) -> Influence
    requires { (reach.count ≤ 64) × (reach.undecided.count ≤ 16) }
    ensures { sets_of result ≡ influence_by reach variables }
{
    let groups = &reach.groups.sets[..reach.groups.count.min(144)];
    let facts = &reach.facts[..reach.count];
    let decisions = &reach.decisions[..reach.undecided.count];
    let mut sets = [0u64; 80];
    close_each(&mut sets, 0, groups, facts, variables);
    close_each(&mut sets, reach.count, groups, decisions, u64::MAX);
    Influence {
        count: reach.count + reach.undecided.count,
        sets,
    }
}

// The variables among the facts, where a binding's number from 3 on is unknown or a conflict.
#[tactic(auto, using(crate::proofs::InfluenceLaws::everyone))]
pub fn variables_of(bindings: [u8; 64]) -> u64
    ensures { (f : ℕ) → f < 64 → has result f ≡ leb 3 (get_or bindings f 0) }
{
    those(u64::MAX, |f| bindings[f] >= 3)
}
