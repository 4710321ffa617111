// The sets that a closing goes by, made once.
ghost use Rattle.std.specs.Prelude.{◌≡◌, ◌≤◌, length, take};

#[derive(Clone, Copy)]
pub struct Groups {
    pub count: usize,
    pub sets: [u64; 144],
}

// These sets.
#[tactic(auto, using(std::proofs::lemmas::Slice::overwrites))]
pub fn groups_of(persons: &[u64]) -> Groups
    requires { length persons.now ≤ 144 }
    ensures { take result.count result.sets ≡ persons.now }
{
    let count = persons.len();
    let mut sets = [0u64; 144];
    sets[..count].copy_from_slice(persons);
    Groups { count, sets }
}
