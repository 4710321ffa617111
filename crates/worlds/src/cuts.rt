// Steps 3 to 5 by sets of cuts: which are kept, which overlap, which are blocked.
ghost use Rattle.std.specs.Prelude.{◌≡◌, ℕ, ◌<◌, [], get_or, ◌&&◌, not};
ghost use Rattle.sets.specs.paper.Sets.{has, meet, union, minus as without, union_of, meets, members};
ghost use Rattle.worlds.specs.code.Tables.{row};
ghost use Rattle.worlds.specs.code.Cuts.{blockers, blocked_twins, Noted};
ghost use Rattle.worlds.specs.code.Settled.{CutsSettled};

use crate::over::{gather, meeting};
use crate::tables::{
    Active, BLOCKINGS, CLASHES, CLASHING, CROSSING, DROPPERS, LATER_CLASHING, LOWER_TWINS, MEMBERS,
    Noted, OPEN, OPEN_EDGES, SAID, SPREAD, TWINS, Tables,
};
use sets::members::Members;
use sets::minus;

// Step 3: the active cuts that no active cut drops; drops are decided together.
pub fn apply_cut_precedence(t: &Tables, active: u64) -> u64
    ensures { (c : ℕ) → has result c ≡ (has active c && not (meets (row t.now 4 c) active)) }
{
    minus(active, meeting(&t[DROPPERS], active, active))
}

// Step 4: the kept cuts that overlap another.
pub fn overlapping(t: &Tables, kept: u64) -> u64
    ensures { (c : ℕ) → has result c ≡ (has kept c && meets (row t.now 5 c) kept) }
{
    meeting(&t[CLASHING], kept, kept)
}

// Step 5: the frozen edges that block a cut.
pub fn blocking(t: &Tables, c: usize, frozen: u64, decisions: u64) -> u64
    requires { c < 64 }
    ensures { result ≡ blockers t.now frozen decisions c }
{
    let open = minus(t[OPEN][c], decisions);
    let said = t[SAID][c] | gather(&t[OPEN_EDGES], open);
    frozen & t[CROSSING][c] & said
}

// The cuts merged with one that is blocked; notes what blocks which cut.
pub fn blocked(t: &Tables, standing: u64, frozen: u64, decisions: u64, noted: &mut [u64; 64]) -> u64
    ensures twins { result ≡ blocked_twins t.now frozen decisions (members standing) }
    ensures noted { Noted standing (blockers t.now frozen decisions) noted.old noted.new }
{
    let mut found = 0;
    for c in Members(standing) {
        let edges = blocking(t, c, frozen, decisions);
        if edges != 0 {
            noted[c] |= edges;
            found |= t[TWINS][c];
        }
    }
    found
}

// The lowest of each set of merged cuts.
pub fn lowest_twins(t: &Tables, cuts: u64) -> u64
    ensures { (c : ℕ) → has result c ≡ (has cuts c && not (meets (row t.now 3 c) cuts)) }
{
    minus(cuts, meeting(&t[LOWER_TWINS], cuts, cuts))
}

// Notes at each of these cuts those of them that it overlaps and comes before.
pub fn note_clashes(t: &Tables, cuts: u64, noted: &mut [u64; 64])
    ensures { Noted cuts (λ c. meet (row t.now 6 c) cuts) noted.old noted.new }
{
    for c in Members(cuts) {
        noted[c] |= t[LATER_CLASHING][c] & cuts;
    }
}

#[derive(Drop)]
pub struct CutsDone {
    pub overlap: u64,
    pub applied: u64,
}

// Steps 3 to 5: the applied cuts, and the marks of those that overlap; adds what blocks which cut, and which cuts overlap.
pub fn settle_cuts(t: &Tables, active: Active, noted: &mut Noted) -> CutsDone
    ensures cuts { CutsSettled t.now active result (get_or noted.old 1 []) (get_or noted.new 1 []) (get_or noted.old 2 []) (get_or noted.new 2 []) }
    ensures parts { get_or noted.new 0 [] ≡ get_or noted.old 0 [] }
{
    let left = apply_cut_precedence(t, active.cuts);
    let clash = overlapping(t, left);
    note_clashes(t, lowest_twins(t, clash), &mut noted[CLASHES]);
    let standing = minus(left, clash);
    let out = blocked(
        t,
        standing,
        active.frozen,
        active.decisions,
        &mut noted[BLOCKINGS],
    );
    let united = gather(&t[MEMBERS], clash);
    CutsDone {
        overlap: gather(&t[SPREAD], united),
        applied: minus(standing, out),
    }
}
