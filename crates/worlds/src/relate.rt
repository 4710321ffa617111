// How the cuts of a plan stand to each other and to the edges, once a case.
ghost use Rattle.std.specs.Prelude.{◌≡◌, ◌&&◌, ℕ, ◌<◌, eqb};
ghost use Rattle.sets.specs.paper.Sets.{has, set_of, rising_less, All};
ghost use Rattle.records.specs.code.Decoded.{numbers_of, cuts_of};
ghost use Rattle.worlds.specs.code.Over.{entry};
ghost use Rattle.worlds.specs.code.Related.{chain_by, Preceding, Chained, CutRelated, CutsRelated, PrecedesFit};

use crate::lay::lay;
use crate::over::{gather, meeting};
use crate::tables::{
    CLASHING, CROSSING, DROPPERS, LATER_CLASHING, LOWER_TWINS, MEMBERS, PAIRS, TWINS, Tables,
};
use records::plan::{Cuts, Numbers};
use sets::members::{Members, those};
use sets::{bit, minus, rising_less};

// A list of numbers as a set.
fn set_of(list: Numbers) -> u64
    requires { All (λ n. n < 64) (numbers_of list) }
    ensures { result ≡ set_of (numbers_of list) }
{
    let n = usize::from(list.count).min(16);
    let mut all = 0;
    for &p in &list.items[..n] {
        all |= bit(p);
    }
    all
}

// The cuts that each cut precedes by its own list.
pub fn direct_precedence(cuts: Cuts, direct: &mut [u64; 64])
    requires { All PrecedesFit (cuts_of cuts) }
    ensures { Preceding cuts direct.new }
{
    let n = cuts.count.min(16);
    for i in 0..n {
        direct[i] = set_of(cuts.items[i].precedes);
    }
}

// All that are reached from these cuts in so many steps.
fn chain(direct: &[u64; 64], steps: usize, from: u64) -> u64
    ensures { result ≡ chain_by direct.now steps from }
{
    let mut m = from;
    for _step in 0..steps {
        m |= gather(direct, m);
    }
    m
}

// The cuts that each of these cuts precedes, through chains.
pub fn chains(direct: &[u64; 64], cuts: u64, steps: usize, preceded: &mut [u64; 64])
    ensures { Chained direct.now cuts steps preceded.new }
{
    for c in Members(cuts) {
        preceded[c] = chain(direct, steps, direct[c]);
    }
}

// One cut beside all cuts, and beside the Combination edges.
fn relate_cut(t: &mut Tables, preceded: &[u64; 64], c: usize, cuts: u64, combination: u64)
    requires { c < 64 }
    ensures { CutRelated preceded.now c cuts combination t.old t.new }
{
    let own = t[MEMBERS][c];
    let sharing = meeting(&t[MEMBERS], cuts, own);
    let twins = those(cuts, |d| own == t[MEMBERS][d]);
    let later = those(sharing, |d| rising_less(own, t[MEMBERS][d]));
    let inward = meeting(&t[PAIRS], combination, own);
    let crossing = meeting(&t[PAIRS], inward, !own);
    let place = bit(c as u8);
    let preceding = meeting(preceded, sharing, place);
    let droppers = minus(preceding, preceded[c]);
    lay(t, TWINS, c, twins);
    lay(t, LOWER_TWINS, c, twins & (place - 1));
    lay(t, DROPPERS, c, droppers);
    lay(t, CLASHING, c, minus(sharing, twins));
    lay(t, LATER_CLASHING, c, later);
    lay(t, CROSSING, c, crossing);
}

// All these cuts, each beside all.
pub fn relate_cuts(t: &mut Tables, preceded: &[u64; 64], cuts: u64, combination: u64)
    ensures { CutsRelated preceded.now cuts combination t.old t.new }
{
    for c in Members(cuts) {
        relate_cut(t, preceded, c, cuts, combination);
    }
}
