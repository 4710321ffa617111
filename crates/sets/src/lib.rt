// Sets of persons as masks: bit p stands for person p. Sets of other numbers (facts, rules, citations, evidence, worlds) are masks too.
#![tactic(auto)]

pub mod members;
pub mod numbers;
pub mod persons;
pub mod whole;

ghost use Rattle.std.specs.Prelude.{◌≡◌, ◌∷◌, ◌<◌};
ghost use Rattle.sets.specs.paper.Sets.{has, one, union, minus, subset, size, lowest, members, rising_less, pass, close_of};

// The mask of a number that is no person's; a person's is in `persons`.
pub fn bit(p: u8) -> u64
    requires { p < 64 }
    ensures { result ≡ one p }
{
    1u64 << p
}

// Whether a number that is no person's is in a mask; none from 64 on is. Of persons `has_person` tells.
pub fn contains(m: u64, p: u8) -> bool
    ensures { result ≡ has m p }
{
    if p < 64 { m & bit(p) != 0 } else { false }
}

pub fn union(a: u64, b: u64) -> u64
    ensures { result ≡ union a b }
{
    a | b
}

pub fn minus(a: u64, b: u64) -> u64
    ensures { result ≡ minus a b }
{
    a & !b
}

pub fn subset(a: u64, b: u64) -> bool
    ensures { result ≡ subset a b }
{
    a & !b == 0
}

pub fn size(m: u64) -> u32
    ensures { result ≡ size m }
{
    u64::count_ones(m)
}

// The lowest number of a set that is not empty.
pub fn low(set: u64) -> usize
    requires { set ≡ 0 → ⊥ }
    ensures { (result ≡ lowest set) × (result < 64) }
{
    u64::trailing_zeros(set) as usize
}

// The set without its lowest number.
pub fn others(set: u64) -> u64
    requires { set ≡ 0 → ⊥ }
    ensures { (members set ≡ lowest set ∷ members result) × (result < set) }
{
    set & (set - 1)
}

// Whether a comes before b, as rising lists of persons: by the lowest person who is in one of them only.
pub fn rising_less(a: u64, b: u64) -> bool
    ensures { result ≡ rising_less a b }
{
    let d = a ^ b;
    if d == 0 {
        return false;
    }
    let t = u64::trailing_zeros(d);
    if (a >> t) & 1 == 1 {
        return b >> t != 0;
    }
    a >> t == 0
}

// Each set once, in order, where it meets what is there.
pub fn pass(sets: &[u64], seed: u64) -> u64
    ensures { result ≡ pass sets.now seed }
{
    let mut m = seed;
    for &s in sets {
        if s & m != 0 {
            m |= s;
        }
    }
    m
}

// The closing of a set under a list of sets: passes until one adds nobody.
pub fn close(sets: &[u64], seed: u64) -> u64
    ensures { result ≡ close_of sets.now seed }
{
    let mut m = seed;
    loop {
        let next = pass(sets, m);
        if next == m {
            return m;
        }
        m = next;
    }
}
