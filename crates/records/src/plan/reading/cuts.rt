// Cuts: one record from its bit map on, and the pass over all of them.
ghost use Rattle.std.specs.Prelude.{◌≡◌, true, false, ◌&&◌, [], ◌≤◌, ◌<◌, length, ltb};
ghost use Rattle.sets.specs.paper.Sets.{all_of};
ghost use Rattle.records.specs.paper.Plan as paper;
ghost use Rattle.records.specs.code.Readers.{map_read};
ghost use Rattle.records.specs.code.Passes.{raw_of, with_bits, Passed, full_judgement};
ghost use Rattle.records.specs.code.Decoded.{decisions_of, cut_of, cuts_of};
ghost use Rattle.records.specs.code.PlanPasses.{plan_reading, cut_read, cut_fits, with_cuts, cut_seen, cut_answer_fits};

use crate::fields::judge::judged_fully;
use crate::fields::lists::{decisions_from, numbers_from};
use crate::fields::passing::{Passing, refused};
use crate::fields::{
    CITATION, Elected, Field, Listed, Wide, byte_at, election_at, list_at, mask_at, no_election,
    opt_at, pairs_at,
};
use crate::plan::checks::decisions::{decided_once, unresolved_in};
use crate::plan::{Cut, Cuts, Decisions, Election, Numbers};

// The fields of a cut; where the decisions stand and how many there are, the same of the cuts that it precedes.
#[derive(Drop)]
pub struct CutFields {
    pub members: u64,
    pub condition: u8,
    pub citation: u8,
    pub election: Election,
    pub pairs: usize,
    pub decided: u8,
    pub first: usize,
    pub count: u8,
}

// The bits, the fields, and the place after them.
#[derive(Drop)]
pub enum CutSeen {
    Got(u8, CutFields, usize),
    Bad,
}

pub fn cut_at(s: &[u8], at: usize) -> CutSeen
    ensures { (cut_read s.now result ≡ map_read (with_bits paper.cut_from) (raw_of paper.plan_formats 5 s.now at)) × cut_answer_fits s.now result }
{
    let Field::Got(bits, p) = byte_at(s, at, 0, 255) else {
        return CutSeen::Bad;
    };
    let Wide::Got(members, p0) = mask_at(s, p, bits % 2 == 1) else {
        return CutSeen::Bad;
    };
    let Field::Got(condition, p1) = opt_at(s, p0, bits / 2 % 2 == 1, 0, 255) else {
        return CutSeen::Bad;
    };
    let Field::Got(citation, p2) = opt_at(s, p1, bits / 4 % 2 == 1, 0, CITATION) else {
        return CutSeen::Bad;
    };
    let Elected::Got(election, p3) = election_at(s, p2, bits / 8 % 2 == 1) else {
        return CutSeen::Bad;
    };
    let Listed::Got(pairs, decided, p4) = pairs_at(s, p3, bits / 16 % 2 == 1, 64, 255, 1, 3) else {
        return CutSeen::Bad;
    };
    let Listed::Got(first, count, next) = list_at(s, p4, bits / 32 % 2 == 1, 16, 255) else {
        return CutSeen::Bad;
    };
    if bits / 64 == 0 {
        let fields = CutFields {
            members: members,
            condition: condition,
            citation: citation,
            election: election,
            pairs: pairs,
            decided: decided,
            first: first,
            count: count,
        };
        return CutSeen::Got(bits, fields, next);
    }
    CutSeen::Bad
}

fn cut_from(s: &[u8], fields: CutFields) -> Cut
    requires { cut_fits s.now fields }
    ensures { (cut_of result ≡ cut_seen s.now fields) × (result.decisions.count ≤ 64) }
{
    let decisions = decisions_from(s, fields.pairs, fields.decided);
    let precedes = numbers_from(s, fields.first, fields.count);
    let election = fields.election;
    Cut {
        members: fields.members,
        condition: fields.condition,
        citation: fields.citation,
        election: election,
        decisions: decisions,
        precedes: precedes,
    }
}

// What is wrong with a cut after n others, when `total` decisions are unresolved, its own among them.
fn cut_judged(n: usize, total: usize, fits: bool, headed: bool, decisions: Decisions) -> u8
    requires { decisions.count ≤ 64 }
    ensures { (result ≡ full_judgement n 16 (ltb 16 total) (fits && headed) (paper.decided_once (decisions_of decisions))) × (result ≡ 0 → n < 16) }
{
    let once = decided_once(decisions);
    judged_fully(n, 16, 16 < total, fits, headed, once)
}

#[derive(Drop)]
pub struct CutsRead {
    pub next: Passing,
    pub cuts: Cuts,
}

pub fn no_cuts() -> Cuts
    ensures { (cuts_of result ≡ []) × (result.count ≡ 0) × (length result.items ≡ 16) }
{
    let election = no_election();
    let decisions = Decisions {
        count: 0,
        edges: [0; 64],
        verdicts: [0; 64],
    };
    let precedes = Numbers {
        count: 0,
        items: [0; 16],
    };
    let blank = Cut {
        members: 0,
        condition: 0,
        citation: 0,
        election: election,
        decisions: decisions,
        precedes: precedes,
    };
    Cuts {
        count: 0,
        items: [blank; 16],
    }
}

pub fn read_cuts(s: &[u8], from: Passing) -> CutsRead
    requires { from.record ≤ from.at }
    ensures { Passed plan_reading with_cuts 5 s.now from result.next (cuts_of result.cuts)
        × (result.next.record ≤ result.next.at) × (result.next.headed ≡ from.headed) × (ltb 16 (paper.unresolved (cuts_of result.cuts)) ≡ false)
        × (all_of (λ c. paper.decided_once c.decisions) (cuts_of result.cuts) ≡ true) }
{
    let mut cuts = no_cuts();
    let mut pending: usize = 0;
    let mut here = from;
    while here.at < s.len() && here.number == 0 {
        let at = here.at;
        if s[at] != 5 {
            break;
        }
        let CutSeen::Got(bits, fields, next) = cut_at(s, at + 1) else {
            return CutsRead {
                next: refused(here, 1),
                cuts: cuts,
            };
        };
        let n = cuts.count;
        let cut = cut_from(s, fields);
        let total = pending + unresolved_in(cut.decisions);
        here.number = cut_judged(n, total, bits & 7 == 7, from.headed, cut.decisions);
        if here.number != 0 {
            break;
        }
        cuts.items[n] = cut;
        cuts.count = n + 1;
        pending = total;
        here.at = next;
        here.record = here.record + 1;
    }
    CutsRead {
        next: here,
        cuts: cuts,
    }
}
