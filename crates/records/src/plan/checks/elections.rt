// Refusal 7 of a plan: elections for one fact that differ. The record refused is the later one.
ghost use Rattle.std.specs.Prelude.{◌≡◌, ◌<◌, cond};
ghost use Rattle.records.specs.paper.Fields.{fine, first_fault};
ghost use Rattle.records.specs.paper.Plan.{cuts_at};
ghost use Rattle.records.specs.code.Decoded.{plan_of, election_of};
ghost use Rattle.records.specs.code.Check.{checked_of};
ghost use Rattle.records.specs.code.Elections.{agree, agreement};

use crate::checked::Checked;
use crate::fields::no_election;
use crate::plan::counts::{Counts, count_records};
use crate::plan::{Attachment, Attachments, Cut, Cuts, Election, Plan};

pub fn same(a: Election, b: Election) -> bool
    ensures { result ≡ agree (election_of a) (election_of b) }
{
    if !a.given {
        return true;
    }
    if !b.given {
        return true;
    }
    if a.fact != b.fact {
        return true;
    }
    if a.actor != b.actor {
        return false;
    }
    if a.policy != b.policy {
        return false;
    }
    a.citation == b.citation
}

fn latest(earlier: Election, later: Election) -> Election
    ensures { result ≡ cond later.given later earlier }
{
    if later.given { later } else { earlier }
}

// The place of an election's fact among all that there may be.
fn fact_place(election: Election) -> usize
    ensures { (result ≡ election.fact) × (result < 256) }
{
    usize::from(election.fact)
}

// One election for a fact is kept: as long as none differs, it stands for all of them.
pub fn elections(plan: Plan) -> Checked
    ensures { result ≡ checked_of (first_fault (cuts_at (plan_of plan)) (agreement (plan_of plan)) (fine (plan_of plan))) }
{
    let counts = count_records(plan);
    let first = counts.headings + counts.facts + counts.nodes + counts.edges;
    let cut_count = counts.cuts;
    let total = cut_count + counts.attachments;
    let cuts = plan.cuts;
    let attachments = plan.attachments;
    let mut kept = [no_election(); 256];
    for k in 0..total {
        let election = if k < cut_count {
            cuts.items[k].election
        } else {
            attachments.items[k - cut_count].election
        };
        let fact = fact_place(election);
        let earlier = kept[fact];
        if !same(election, earlier) {
            return Checked::Refused {
                number: 7,
                record: first + k,
            };
        }
        kept[fact] = latest(earlier, election);
    }
    Checked::Accepted
}
