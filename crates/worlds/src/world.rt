// The state of a world, and the steps that each take it whole and hand back the next.
ghost use Rattle.std.specs.Prelude.{◌≡◌, ℕ, ◌<◌};
ghost use Rattle.worlds.specs.code.Over.{entry, Marked};
ghost use Rattle.worlds.specs.code.Blocks.{CutInto, Regrouped, MovedTo, Frozen, Cut, Attached, Blanked, SeenBy};

use crate::classes::{alone, join_pairs};
use crate::over::{gather, put};
use crate::tables::{ANCHORS, Active, Common, MEMBERS, MOVERS, PAIRS, Settled, Tables};
use sets::members::Members;
use sets::persons::has_person;
use sets::{low, minus, subset};

// At each person the block and the role (0 none, 1 member, 2 excluded, 3 barred), or the kind of the mark (3 overlap, 4 discretion).
#[derive(Drop)]
pub struct World {
    pub blocks: [u64; 64],
    pub roles: [u8; 64],
    pub kinds: [u8; 64],
}

// Nobody is in a block.
pub fn blank() -> World
    ensures { Blanked result }
{
    World {
        blocks: [0; 64],
        roles: [0; 64],
        kinds: [0; 64],
    }
}

// The members of applied cuts that are placed become blocks; the rest are the placed who are in none of them.
fn cut_blocks(blocks: &mut [u64; 64], members: &[u64; 64], applied: u64, placed: u64) -> u64
    ensures { CutInto members.now applied placed blocks.old blocks.new result }
{
    let mut rest = placed;
    for c in Members(applied) {
        let part = members[c] & placed;
        put(blocks, part, part);
        rest = minus(rest, part);
    }
    rest
}

// Whoever of these persons is in the target has it as block, the others lose the movers from theirs.
fn regroup(blocks: &mut [u64; 64], persons: u64, target: u64, movers: u64)
    ensures { Regrouped persons target movers blocks.old blocks.new }
{
    for p in Members(persons) {
        blocks[p] = if has_person(target, p as u8) {
            target
        } else {
            minus(blocks[p], movers)
        };
    }
}

// The movers leave their blocks and come into this one; nothing is done where they are there already.
fn move_to(blocks: &mut [u64; 64], block: u64, movers: u64)
    ensures { MovedTo block movers blocks.old blocks.new }
{
    if !subset(movers, block) {
        let left = gather(blocks, movers);
        regroup(blocks, block | left, block | movers, movers);
    }
}

impl World {
    // Of step 2 the marks: these persons get kind 4. Which edges freeze, and whom discretion marks by them, is found before.
    pub fn freeze(mut self, discretion: u64) -> World
        ensures { Frozen discretion self result }
    {
        put(&mut self.kinds, discretion, 4);
        self
    }

    // Of step 4 the marks, over those of discretion, and step 6: applied cuts are blocks, the rest split into components by frozen edges, and the
    // placed have role 1. Which cuts apply, and whom overlap marks, is found before, by steps 3 to 5.
    pub fn cut(mut self, t: &Tables, frozen: u64, overlap: u64, applied: u64, placed: u64) -> World
        ensures { Cut t.now frozen overlap applied placed self result }
    {
        put(&mut self.kinds, overlap, 3);
        put(&mut self.roles, placed, 1);
        alone(&mut self.blocks, placed);
        let rest = cut_blocks(&mut self.blocks, &t[MEMBERS], applied, placed);
        join_pairs(&mut self.blocks, &t[PAIRS], frozen, rest);
        self
    }

    // Step 7 for the attachments that are not skipped, which is found before: in order, their members that are placed move to the anchor's block.
    pub fn attach(mut self, t: &Tables, moved: u64, placed: u64) -> World
        ensures { Attached t.now moved placed self result }
    {
        for i in Members(moved) {
            let anchor = t[ANCHORS][i] & placed;
            if anchor != 0 {
                let movers = t[MOVERS][i] & placed;
                let block = self.blocks[low(anchor)];
                move_to(&mut self.blocks, block, movers);
            }
        }
        self
    }

    // Of step 8 the bars: these persons get role 3. Which bars hold is found before.
    pub fn bar(mut self, barred: u64) -> World
        ensures { (result.blocks ≡ self.blocks) × (result.kinds ≡ self.kinds) × Marked barred 3 self.roles result.roles }
    {
        put(&mut self.roles, barred, 3);
        self
    }

    // Of step 8 the statuses, after the bars: these persons get role 2. Which statuses are active is found before.
    pub fn status(mut self, excluded: u64) -> World
        ensures { (result.blocks ≡ self.blocks) × (result.kinds ≡ self.kinds) × Marked excluded 2 self.roles result.roles }
    {
        put(&mut self.roles, excluded, 2);
        self
    }
}

// One world, from what `settle` found of it; placed are the persons of the roster without a mark.
pub fn evaluate_world(t: &Tables, common: Common, active: Active, settled: Settled) -> World
    ensures { SeenBy t.now common active settled result }
{
    let placed = minus(common.roster, settled.discretion | settled.overlap);
    blank()
        .freeze(settled.discretion)
        .cut(t, active.frozen, settled.overlap, settled.applied, placed)
        .attach(t, settled.moved, placed)
        .bar(settled.barred & placed)
        .status(settled.excluded & placed)
}
