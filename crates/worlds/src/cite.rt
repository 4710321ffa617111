// The citations of persons' blocks, gathered at the lowest person of each block.
ghost use Rattle.std.specs.Prelude.{◌≡◌, ◌&&◌, cond, eqb, ℕ, ◌<◌};
ghost use Rattle.sets.specs.paper.Sets.{has, union, meet, meets, subset as inside, only, lowest, union_of, members};
ghost use Rattle.worlds.specs.code.Over.{entry};
ghost use Rattle.worlds.specs.code.Tables.{row};
ghost use Rattle.worlds.specs.code.Citing.{CitesIn, through, own_of, CitedFor, Cites};

use crate::over::give;
use crate::tables::{
    ANCHORS, ATTACHMENT_CITATIONS, BAR_CITATIONS, BARS, CUT_CITATIONS, Common, EDGE_CITATIONS,
    MEMBERS, MOVERS, PAIRS, STATUS_CITATIONS, STATUSES, Settled, Tables,
};
use sets::members::Members;
use sets::{low, minus, others, subset};

// Adds citations to the blocks of these persons. A turn takes a whole block, not the next person alone.
fn cite_at(blocks: &[u64; 64], persons: u64, what: u64, cited: &mut [u64; 64])
    ensures { CitesIn blocks.now (λ b. only (meets persons b) what) cited.old cited.new }
{
    let mut m = persons;
    while m != 0 {
        let b = blocks[low(m)];
        if b != 0 {
            cited[low(b)] |= what;
        }
        m = minus(others(m), b);
    }
}

// Frozen edges within a block.
fn cite_edges(blocks: &[u64; 64], t: &Tables, frozen: u64, cited: &mut [u64; 64])
    ensures { CitesIn blocks.now (λ b. union_of (λ e. only (meets (row t.now 0 e) b && inside (row t.now 0 e) b) (row t.now 16 e)) (members frozen)) cited.old cited.new }
{
    for e in Members(frozen) {
        let pair = t[PAIRS][e];
        if pair != 0 {
            let b = blocks[low(pair)];
            if subset(pair, b) {
                cited[low(b)] |= t[EDGE_CITATIONS][e];
            }
        }
    }
}

// Adds to a table, at each person, the citations of the applied cuts that hold the person.
fn own_citations(t: &Tables, applied: u64, own: &mut [u64; 64])
    ensures { (p : ℕ) → entry own.new p ≡ union (entry own.old p) (own_of t.now applied p) }
{
    for c in Members(applied) {
        give(own, t[MEMBERS][c], t[CUT_CITATIONS][c]);
    }
}

// Adds citations to the block of one person.
fn cite_one(blocks: &[u64; 64], p: usize, what: u64, cited: &mut [u64; 64])
    requires { p < 64 }
    ensures { CitesIn blocks.now (λ b. only (has b p) what) cited.old cited.new }
{
    let b = blocks[p];
    if b != 0 {
        cited[low(b)] |= what;
    }
}

// Applied cuts that hold one end of a frozen edge whose other end is in the block.
fn cite_cuts(
    blocks: &[u64; 64],
    pairs: &[u64; 64],
    frozen: u64,
    own: &[u64; 64],
    cited: &mut [u64; 64],
)
    ensures { CitesIn blocks.now (through pairs.now frozen (entry own.now)) cited.old cited.new }
{
    for e in Members(frozen) {
        let pair = pairs[e];
        if pair != 0 {
            let l = low(pair);
            let more = others(pair);
            let r = if more != 0 { low(more) } else { l };
            let near = own[l];
            let far = own[r];
            if near | far != 0 {
                cite_one(blocks, l, far, cited);
                cite_one(blocks, r, near, cited);
            }
        }
    }
}

// Attachments with anchor and some member in the block, active or not.
fn cite_attachments(blocks: &[u64; 64], t: &Tables, attachments: u64, cited: &mut [u64; 64])
    ensures { CitesIn blocks.now (λ b. union_of (λ i. only (has b (lowest (row t.now 12 i)) && meets (row t.now 11 i) b) (row t.now 18 i)) (members attachments)) cited.old cited.new }
{
    for i in Members(attachments) {
        let anchor = t[ANCHORS][i];
        if anchor != 0 {
            let b = blocks[low(anchor)];
            if b & t[MOVERS][i] != 0 {
                cited[low(b)] |= t[ATTACHMENT_CITATIONS][i];
            }
        }
    }
}

// Rules that name one of these persons in the block.
fn cite_named(
    blocks: &[u64; 64],
    named: &[u64; 64],
    citations: &[u64; 64],
    rules: u64,
    persons: u64,
    cited: &mut [u64; 64],
)
    ensures { CitesIn blocks.now (λ b. union_of (λ i. only (meets (meet (entry named.now i) persons) b) (entry citations.now i)) (members rules)) cited.old cited.new }
{
    for i in Members(rules) {
        let held = named[i] & persons;
        if held != 0 {
            cite_at(blocks, held, citations[i], cited);
        }
    }
}

// Adds to each of these persons what its block cites, and the cuts that hold the person.
fn hand_out(
    blocks: &[u64; 64],
    cited: &[u64; 64],
    own: &[u64; 64],
    persons: u64,
    citations: &mut [u64; 64],
)
    ensures { CitedFor blocks.now cited.now own.now persons citations.old citations.new }
{
    for p in Members(persons) {
        let b = blocks[p];
        if b != 0 {
            citations[p] |= cited[low(b)] | own[p];
        }
    }
}

// The rules to look at: none where they could concern nobody.
fn unless_none(concerned: u64, rules: u64) -> u64
    ensures { result ≡ cond (eqb concerned 0) 0 rules }
{
    if concerned == 0 { 0 } else { rules }
}

// Adds to the citations of these persons those of a world in which they have these blocks.
pub fn cite(
    t: &Tables,
    common: Common,
    frozen: u64,
    settled: Settled,
    blocks: &[u64; 64],
    persons: u64,
    citations: &mut [u64; 64],
)
    ensures { Cites t.now common frozen settled blocks.now persons citations.old citations.new }
{
    if persons == 0 {
        return;
    }
    let barred = minus(settled.barred, settled.excluded);
    let mut cited = [0u64; 64];
    cite_edges(blocks, t, frozen, &mut cited);
    let mut own = [0u64; 64];
    own_citations(t, settled.applied, &mut own);
    let leading = unless_none(settled.applied, frozen);
    cite_cuts(blocks, &t[PAIRS], leading, &own, &mut cited);
    cite_attachments(blocks, t, common.attachments, &mut cited);
    let bars = unless_none(barred, common.bars);
    cite_named(
        blocks,
        &t[BARS],
        &t[BAR_CITATIONS],
        bars,
        barred,
        &mut cited,
    );
    let statuses = unless_none(settled.excluded, common.statuses);
    cite_named(
        blocks,
        &t[STATUSES],
        &t[STATUS_CITATIONS],
        statuses,
        settled.excluded,
        &mut cited,
    );
    hand_out(blocks, &cited, &own, persons, citations);
}
