// The numbers of a set one by one, lowest first: a loop over them is `for p in Members(set)`.
ghost use Rattle.std.specs.Prelude.{◌≡◌, ◌<◌, ℕ, true, false};
ghost use Rattle.std.specs.Iterator.{item_count};
ghost use Rattle.sets.specs.paper.Sets.{has, members};
ghost use Rattle.sets.specs.code.Members.{NextMember};

use crate::{bit, low, others};

// The numbers that are still to come, as a set.
#[derive(Clone, Copy)]
pub struct Members(pub u64);

impl Iterator for Members {
    type Item = usize;

    ghost next_gives = { λ s r t. NextMember s.0 r t.0 };

    ghost remaining = { item_count (λ s. members s.0) };

    fn next(&mut self) -> Option<usize> {
        if self.0 == 0 {
            return None;
        }
        let lowest = low(self.0);
        self.0 = others(self.0);
        Some(lowest)
    }
}

// Of these numbers those that pass a test.
pub fn those<F: Fn(usize) -> bool>(set: u64, test: F) -> u64
    requires { (p : ℕ) → p < 64 → F.pre test p }
    ensures outside { (p : ℕ) → has set p ≡ false → has result p ≡ false }
    ensures inside { (p : ℕ) → has set p ≡ true → F.post test p (has result p) }
{
    let mut found: u64 = 0;
    for p in Members(set) {
        if test(p) {
            found |= bit(p as u8);
        }
    }
    found
}
