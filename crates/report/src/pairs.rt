// Events of pairs: what blocked which cut, and which cuts overlapped.
ghost use Rattle.std.specs.Prelude.{◌≡◌, true, ℕ, ◌+◌, ◌*◌, ◌<◌, ◌≤◌, length};
ghost use mathlib.Core.List.{List, flat_map};
ghost use Rattle.sets.specs.paper.Sets.{has, numbers};
ghost use Rattle.records.specs.paper.Plan.{Plan as Paper};
ghost use Rattle.records.specs.paper.Case.{Case as PaperCase};
ghost use Rattle.records.specs.code.Decoded.{cuts_of};
ghost use Rattle.expressions.specs.code.Evident.{EvidenceBy};
ghost use Rattle.expressions.specs.paper.Rules.{edge_count, cut_count};
ghost use Rattle.worlds.specs.code.Over.{entry};
ghost use Rattle.worlds.specs.paper.Events.{event, listed};
ghost use Rattle.report.specs.declared.event.Event.{Event};
ghost use Rattle.report.specs.paper.EventList.{event_length};
ghost use Rattle.report.specs.code.Happened.{blocked_over, overlap_over};
ghost use Rattle.report.specs.code.EventBytes.{Writes, Below, sizes};

use crate::event::{Event, write_each};
use crate::kinds::{actor_of, election_evidence};
use records::plan::Cuts;
use sets::size;

// For each of the first n sets an event for each of its numbers.
fn write_pairs<F: Fn(usize, usize) -> Event>(
    events: &mut [u8],
    at: usize,
    sets: &[u64; 64],
    n: usize,
    make: F,
) -> usize
    requires few { n ≤ 16 }
    requires room { at + event_length * sizes n (entry sets.now) ≤ length events.old }
    requires made { (c d : ℕ) → c < n → d < 64 → has (entry sets.now c) d ≡ true → F.pre make c d }
    ensures place { result ≡ at + event_length * sizes n (entry sets.now) }
    ensures written { (k : ℕ) (g : ℕ → ℕ → List ℕ) → ((c : ℕ) → Below (entry sets.now c) k)
        → ((c d : ℕ) (e : Event) → c < n → has (entry sets.now c) d ≡ true → F.post make c d e → event e.kind e.a e.b e.c e.mask ≡ g c d)
        → Writes at (flat_map (λ c. listed k (has (entry sets.now c)) (g c)) (numbers n 0)) events.old events.new result }
{
    let mut place = at;
    for c in 0..n {
        let second = |d: usize| -> Event
            requires { F.pre make c d }
            ensures { F.post make c d result }
        { make(c, d) };
        place = write_each(events, place, sets[c], second);
    }
    place
}

// 3 blocked: cut, edge, actor, evidence; the first n cuts.
pub fn write_blocked(
    events: &mut [u8],
    at: usize,
    cuts: Cuts,
    evidence: &[u64; 256],
    blockings: &[u64; 64],
    n: usize,
) -> usize
    requires { (n ≤ 16) × (at + event_length * sizes n (entry blockings.now) ≤ length events.old) }
    ensures place { result ≡ at + event_length * sizes n (entry blockings.now) }
    ensures written { (P : Paper) (C : PaperCase) → P.cuts ≡ cuts_of cuts → EvidenceBy C evidence.now → n ≡ cut_count P → ((c : ℕ) → Below (entry blockings.now c) (edge_count P))
        → Writes at (blocked_over P C (entry blockings.now)) events.old events.new result }
{
    write_pairs(events, at, blockings, n, |c, e| {
        let election = cuts.items[c].election;
        Event {
            kind: 3,
            a: c as u8,
            b: e as u8,
            c: actor_of(election),
            mask: election_evidence(evidence, election),
        }
    })
}

// 4 overlap: cut, cut; the first n cuts.
pub fn write_clashes(events: &mut [u8], at: usize, clashes: &[u64; 64], n: usize) -> usize
    requires { (n ≤ 16) × (at + event_length * sizes n (entry clashes.now) ≤ length events.old) }
    ensures place { result ≡ at + event_length * sizes n (entry clashes.now) }
    ensures written { (P : Paper) → n ≡ cut_count P → ((c : ℕ) → Below (entry clashes.now c) (cut_count P))
        → Writes at (overlap_over P (entry clashes.now)) events.old events.new result }
{
    write_pairs(
        events,
        at,
        clashes,
        n,
        |c, d| Event {
            kind: 4,
            a: c as u8,
            b: d as u8,
            c: 0,
            mask: 0,
        },
    )
}

// How many pairs the first n sets have.
pub fn count_pairs(sets: &[u64; 64], n: usize) -> usize
    requires { n ≤ 16 }
    ensures { (result ≡ sizes n (entry sets.now)) × (result ≤ 1024) }
{
    let mut count: usize = 0;
    for i in 0..n {
        count += size(sets[i]) as usize;
    }
    count
}
