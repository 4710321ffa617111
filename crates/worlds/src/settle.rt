// What a world settles by sets of rules and persons, before anybody's block.
ghost use Rattle.std.specs.Prelude.{[], get_or};
ghost use Rattle.worlds.specs.code.Settled.{Settles};

use crate::cuts::settle_cuts;
use crate::discretion::loose_parts;
use crate::over::{gather, meeting};
use crate::tables::{
    ANCHORS, Active, BARS, Common, MOVERS, Noted, PAIRS, PARTS, SPREAD, STATUSES, Settled, Tables,
};
use sets::minus;

// All that a world says by sets: marks, cuts, attachments, bars, statuses. The notes take its components at discretion, and what blocks and
// clashes is added to them.
pub fn settle(t: &Tables, common: Common, active: Active, noted: &mut Noted) -> Settled
    ensures { Settles t.now common active result (get_or noted.old 0 []) (get_or noted.new 0 []) (get_or noted.old 1 []) (get_or noted.new 1 []) (get_or noted.old 2 []) (get_or noted.new 2 []) }
{
    let parted = loose_parts(&t[PAIRS], active.frozen & common.base, &mut noted[PARTS]);
    let loose = gather(&noted[PARTS], parted.heads);
    let discretion = gather(&t[SPREAD], loose);
    let cuts = settle_cuts(t, active, noted);
    let marks = discretion | cuts.overlap;
    let moved = meeting(&t[ANCHORS], active.attachments, minus(common.roster, marks));
    let attached = minus(gather(&t[MOVERS], moved), marks);
    let barring = meeting(&t[BARS], active.bars, !attached);
    Settled {
        heads: parted.heads,
        fresh: parted.fresh,
        discretion,
        overlap: cuts.overlap,
        applied: cuts.applied,
        moved,
        attached,
        barring,
        barred: gather(&t[BARS], barring),
        excluded: gather(&t[STATUSES], active.statuses),
    }
}
