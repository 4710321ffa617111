// Loops over the numbers of a set, lowest first.
ghost use Rattle.std.specs.Prelude.{◌≡◌, ◌&&◌, ℕ};
ghost use Rattle.sets.specs.paper.Sets.{has, union, meets, members, union_of};
ghost use Rattle.worlds.specs.code.Over.{entry, Marked, Given};

use sets::members::{Members, those};

// The union of the entries of a set of numbers.
pub fn gather(table: &[u64; 64], set: u64) -> u64
    ensures { result ≡ union_of (entry table.now) (members set) }
{
    let mut all = 0;
    for i in Members(set) {
        all |= table[i];
    }
    all
}

// The numbers of a set whose entries meet a set.
pub fn meeting(table: &[u64; 64], set: u64, other: u64) -> u64
    ensures { (i : ℕ) → has result i ≡ (has set i && meets (entry table.now i) other) }
{
    those(set, |i| table[i] & other != 0)
}

// The same entry at each number of a set.
pub fn put<T: Copy>(table: &mut [T; 64], set: u64, value: T)
    ensures { Marked set value table.old table.new }
{
    for i in Members(set) {
        table[i] = value;
    }
}

// The same set added to the entry of each number of a set.
pub fn give(table: &mut [u64; 64], set: u64, more: u64)
    ensures { Given set more table.old table.new }
{
    for i in Members(set) {
        table[i] |= more;
    }
}
