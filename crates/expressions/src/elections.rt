// The first election on each fact. Elections on one fact are equal in an accepted plan, so the first says all.
ghost use Rattle.std.specs.Prelude.{◌≡◌, ◌++◌, map, ℕ, ◌<◌, get_or, take};
ghost use Rattle.records.specs.paper.Plan.{Plan as Paper};
ghost use Rattle.records.specs.code.Decoded.{election_of, no_election, cuts_of, attachments_of};
ghost use Rattle.expressions.specs.paper.Bindings.{elections_in};
ghost use Rattle.expressions.specs.code.Told.{ElectedBy};

use records::plan::{Attachments, Cuts, Election};

// By fact; one that is not given where there is none.
#[derive(Drop)]
pub struct Elected {
    pub items: [Election; 64],
}

// From the last record to the first, so that the first stays.
fn elect_by_attachments(elected: Elected, attachments: Attachments) -> Elected
    ensures { (f : ℕ) → f < 64 → election_of (get_or result.items f no_election) ≡ take 1 (elections_in (map (λ a. election_of a.election) (take attachments.count attachments.items)) f ++ election_of (get_or elected.items f no_election)) }
{
    let mut out = elected;
    for i in (0..attachments.count.min(32)).rev() {
        let a = attachments.items[i];
        let e = a.election;
        let f = usize::from(e.fact);
        if e.given && f < 64 {
            out.items[f] = e;
        }
    }
    out
}

fn elect_by_cuts(elected: Elected, cuts: Cuts) -> Elected
    ensures { (f : ℕ) → f < 64 → election_of (get_or result.items f no_election) ≡ take 1 (elections_in (map (λ c. election_of c.election) (take cuts.count cuts.items)) f ++ election_of (get_or elected.items f no_election)) }
{
    let mut out = elected;
    for i in (0..cuts.count.min(16)).rev() {
        let c = cuts.items[i];
        let e = c.election;
        let f = usize::from(e.fact);
        if e.given && f < 64 {
            out.items[f] = e;
        }
    }
    out
}

// In one pass over the rules that may have elections.
pub fn election_policies(cuts: Cuts, attachments: Attachments) -> Elected
    ensures { (P : Paper) → P.cuts ≡ cuts_of cuts → P.attachments ≡ attachments_of attachments → ElectedBy P result }
{
    let none = Elected {
        items: [Election {
            given: false,
            fact: 0,
            actor: 0,
            policy: 0,
            citation: 0,
        }; 64],
    };
    elect_by_cuts(elect_by_attachments(none, attachments), cuts)
}
