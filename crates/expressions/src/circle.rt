// A person's circle: that person and all who are reached by what joins persons.
ghost use Rattle.std.specs.Prelude.{◌≡◌, ◌++◌, ◌+◌, ◌<◌, ◌≤◌, length, take};
ghost use Rattle.sets.specs.paper.Sets.{one, below, close_of};
ghost use Rattle.expressions.specs.code.Joined.{joins_of};
ghost use Rattle.expressions.specs.code.Listed.{used_at};

use crate::groups::Groups;
use sets::close;
use sets::persons::person_mask;

// Sets of persons that are joined: by a rule, a fact or an unresolved decision.
#[derive(Drop)]
pub struct Joins {
    pub count: usize,
    pub sets: [u64; 224],
}

#[tactic(auto, using(std::proofs::lemmas::Slice::overwrites), unfolding(crate::specs::code::Joined::joins_of))]
fn append(joins: Joins, more: &[u64]) -> Joins
    requires { joins.count + length more.now ≤ 224 }
    ensures { (result.count ≡ joins.count + length more.now) × (joins_of result ≡ joins_of joins ++ more.now) }
{
    let mut all = joins;
    let start = all.count;
    let end = start + more.len();
    all.sets[start..end].copy_from_slice(more);
    all.count = end;
    all
}

pub fn joins_of(
    groups: Groups,
    facts: [u64; 64],
    count: usize,
    decisions: [u64; 16],
    undecided: usize,
) -> Joins
    requires { (count ≤ 64) × (undecided ≤ 16) }
    ensures { joins_of result ≡ take groups.count groups.sets ++ (below count (used_at facts) ++ below undecided (used_at decisions)) }
{
    let none = Joins {
        count: 0,
        sets: [0; 224],
    };
    let rules = append(none, &groups.sets[..groups.count.min(144)]);
    let with_facts = append(rules, &facts[..count]);
    append(with_facts, &decisions[..undecided])
}

#[tactic(auto, using(records::proofs::ListLaws::take_min), unfolding(crate::specs::code::Joined::joins_of))]
pub fn circle_of(joins: Joins, p: u8) -> u64
    requires { p < 64 }
    ensures { result ≡ close_of (joins_of joins) (one p) }
{
    close(&joins.sets[..joins.count.min(224)], person_mask(p))
}
