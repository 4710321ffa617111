// The events of all worlds kind by kind, rising by rule; each writer starts at a place and hands back the place behind its last event.
ghost use Rattle.std.specs.Prelude.{◌≡◌, ◌+◌, ◌*◌, ◌≤◌, length};
ghost use Rattle.sets.specs.paper.Sets.{size};
ghost use Rattle.records.specs.paper.Plan.{Plan as Paper};
ghost use Rattle.records.specs.paper.Case.{Case as PaperCase};
ghost use Rattle.records.specs.code.Decoded.{election_of, edges_of, cuts_of, attachments_of, statuses_of};
ghost use Rattle.expressions.specs.code.Evident.{EvidenceBy};
ghost use Rattle.expressions.specs.paper.Rules.{edge_count, cut_count, attachment_count, bar_count, status_count, fact_count};
ghost use Rattle.worlds.specs.paper.Events.{election_actor, election_evidence};
ghost use Rattle.expressions.specs.paper.Bindings.{default_of};
ghost use Rattle.report.specs.paper.EventList.{number_of, election_citation, event_length};
ghost use Rattle.report.specs.code.Happened.{frozen_over, applied_over, attachment_over, bar_over, status_over, default_over};
ghost use Rattle.report.specs.code.EventBytes.{Writes, Below};

use crate::event::{Event, write_each};
use expressions::elections::election_policies;
use records::plan::{Attachments, Cuts, Edges, Election, Statuses};

// 1 frozen: rule, left, right.
#[tactic(auto, using(crate::proofs::EventLaws::edge_read), unfolding(crate::specs::code::Happened::frozen_over, records::specs::code::Decoded::edge_of))]
pub fn write_frozen(events: &mut [u8], at: usize, edges: Edges, frozen: u64) -> usize
    requires { at + event_length * size frozen ≤ length events.old }
    ensures place { result ≡ at + event_length * size frozen }
    ensures written { (P : Paper) → P.edges ≡ edges_of edges → Below frozen (edge_count P) → Writes at (frozen_over P frozen) events.old events.new result }
{
    write_each(events, at, frozen, |i| {
        let e = edges.items[i];
        Event {
            kind: 1,
            a: i as u8,
            b: e.left,
            c: e.right,
            mask: 0,
        }
    })
}

// The actor of an election; 0 where there is none.
#[tactic(auto, unfolding(records::specs::code::Decoded::election_of))]
pub fn actor_of(e: Election) -> u8
    ensures { result ≡ election_actor (election_of e) }
{
    if e.given { e.actor } else { 0 }
}

// All the evidence that a case gives for an election's fact, by the table of its facts; none without an election.
#[tactic(auto, unfolding(records::specs::code::Decoded::election_of))]
pub fn election_evidence(evidence: &[u64; 256], e: Election) -> u64
    ensures { (C : PaperCase) → EvidenceBy C evidence.now → result ≡ election_evidence C (election_of e) }
{
    if e.given {
        evidence[usize::from(e.fact)]
    } else {
        0
    }
}

// 2 applied: cut, actor, 0, evidence.
#[tactic(auto, using(crate::proofs::EventLaws::cut_read), unfolding(crate::specs::code::Happened::applied_over, records::specs::code::Decoded::cut_of))]
pub fn write_applied(
    events: &mut [u8],
    at: usize,
    cuts: Cuts,
    evidence: &[u64; 256],
    applied: u64,
) -> usize
    requires { (at + event_length * size applied ≤ length events.old) × Below applied 16 }
    ensures place { result ≡ at + event_length * size applied }
    ensures written { (P : Paper) (C : PaperCase) → P.cuts ≡ cuts_of cuts → EvidenceBy C evidence.now → Below applied (cut_count P) → Writes at (applied_over P C applied) events.old events.new result }
{
    write_each(events, at, applied, |i| {
        let e = cuts.items[i].election;
        Event {
            kind: 2,
            a: i as u8,
            b: actor_of(e),
            c: 0,
            mask: election_evidence(evidence, e),
        }
    })
}

// 5 attachment: rule, anchor, actor, evidence.
#[tactic(auto, using(crate::proofs::EventLaws::attachment_read), unfolding(crate::specs::code::Happened::attachment_over, records::specs::code::Decoded::attachment_of))]
pub fn write_attachments(
    events: &mut [u8],
    at: usize,
    attachments: Attachments,
    evidence: &[u64; 256],
    moved: u64,
) -> usize
    requires { (at + event_length * size moved ≤ length events.old) × Below moved 32 }
    ensures place { result ≡ at + event_length * size moved }
    ensures written { (P : Paper) (C : PaperCase) → P.attachments ≡ attachments_of attachments → EvidenceBy C evidence.now → Below moved (attachment_count P) → Writes at (attachment_over P C moved) events.old events.new result }
{
    write_each(events, at, moved, |i| {
        let a = attachments.items[i];
        Event {
            kind: 5,
            a: i as u8,
            b: a.anchor,
            c: a.actor,
            mask: election_evidence(evidence, a.election),
        }
    })
}

// 6 bar: rule.
#[tactic(auto, unfolding(crate::specs::code::Happened::bar_over))]
pub fn write_bars(events: &mut [u8], at: usize, barring: u64) -> usize
    requires { at + event_length * size barring ≤ length events.old }
    ensures place { result ≡ at + event_length * size barring }
    ensures written { (P : Paper) → Below barring (bar_count P) → Writes at (bar_over P barring) events.old events.new result }
{
    write_each(
        events,
        at,
        barring,
        |i| Event {
            kind: 6,
            a: i as u8,
            b: 0,
            c: 0,
            mask: 0,
        },
    )
}

// 7 excluded: rule, person.
#[tactic(auto, using(crate::proofs::EventLaws::status_read), unfolding(crate::specs::code::Happened::status_over, records::specs::code::Decoded::status_of))]
pub fn write_statuses(events: &mut [u8], at: usize, statuses: Statuses, excluding: u64) -> usize
    requires { (at + event_length * size excluding ≤ length events.old) × Below excluding 32 }
    ensures place { result ≡ at + event_length * size excluding }
    ensures written { (P : Paper) → P.statuses ≡ statuses_of statuses → Below excluding (status_count P) → Writes at (status_over P excluding) events.old events.new result }
{
    write_each(
        events,
        at,
        excluding,
        |i| Event {
            kind: 7,
            a: i as u8,
            b: statuses.items[i].person,
            c: 0,
            mask: 0,
        },
    )
}

// The value that an election's policy gives by default; 0 without an election or a default.
#[tactic(auto, unfolding(records::specs::code::Decoded::election_of, expressions::specs::paper::Bindings::default_of))]
fn default_of(e: Election) -> u8
    ensures { result ≡ number_of (default_of (election_of e)) }
{
    u8::from(e.given && e.policy == 2)
}

// The citation of an election; 0 where there is none.
#[tactic(auto, unfolding(records::specs::code::Decoded::election_of))]
fn citation_of(e: Election) -> u64
    ensures { result ≡ election_citation (election_of e) }
{
    if e.given { u64::from(e.citation) } else { 0 }
}

// 8 default: fact, actor, value, citation number.
pub fn write_defaults(
    events: &mut [u8],
    at: usize,
    cuts: Cuts,
    attachments: Attachments,
    defaults: u64,
) -> usize
    requires { at + event_length * size defaults ≤ length events.old }
    ensures place { result ≡ at + event_length * size defaults }
    ensures written { (P : Paper) → P.cuts ≡ cuts_of cuts → P.attachments ≡ attachments_of attachments → Below defaults (fact_count P) → Writes at (default_over P defaults) events.old events.new result }
{
    if defaults == 0 {
        return at;
    }
    let elections = election_policies(cuts, attachments);
    write_each(events, at, defaults, |i| {
        let e = elections.items[i];
        Event {
            kind: 8,
            a: i as u8,
            b: actor_of(e),
            c: default_of(e),
            mask: citation_of(e),
        }
    })
}
