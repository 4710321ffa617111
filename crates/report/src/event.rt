// An event, EVENT bytes, written into the rest of the lent buffer.
ghost use Rattle.std.specs.Prelude.{◌≡◌, true, ℕ, ◌++◌, ◌+◌, ◌*◌, ◌<◌, ◌≤◌, length, drop};
ghost use mathlib.Core.List.{List};
ghost use Rattle.sets.specs.paper.Sets.{has, size};
ghost use Rattle.worlds.specs.paper.Events.{event, listed};
ghost use Rattle.report.specs.declared.event.Event.{Event};
ghost use Rattle.report.specs.paper.EventList.{event_length};
ghost use Rattle.report.specs.code.EventBytes.{Writes, Below};

use page::little::mask_bytes;
use sets::members::Members;

// the length of an event
pub const EVENT: usize = 12;

#[derive(Drop)]
pub struct Event {
    pub kind: u8,
    pub a: u8,
    pub b: u8,
    pub c: u8,
    pub mask: u64,
}

// Kind, three numbers, and a mask, its lowest byte first.
#[tactic(auto, unfolding(worlds::specs::paper::Events::event))]
pub fn encode_event(e: Event) -> [u8; EVENT]
    ensures { result ≡ event e.kind e.a e.b e.c e.mask }
{
    let mut bytes = [0; EVENT];
    bytes[..4].copy_from_slice(&[e.kind, e.a, e.b, e.c]);
    bytes[4..].copy_from_slice(&mask_bytes(e.mask));
    bytes
}

// Fills the first EVENT bytes.
pub fn write_event(rest: &mut [u8], e: Event)
    requires { event_length ≤ length rest.old }
    ensures { rest.new ≡ event e.kind e.a e.b e.c e.mask ++ drop event_length rest.old }
{
    rest[..EVENT].copy_from_slice(&encode_event(e));
}

// An event for each number of a set, rising, from a place on; the place behind the last.
pub fn write_each<F: Fn(usize) -> Event>(events: &mut [u8], at: usize, set: u64, make: F) -> usize
    requires room { at + event_length * size set ≤ length events.old }
    requires made { (i : ℕ) → i < 64 → has set i ≡ true → F.pre make i }
    ensures place { result ≡ at + event_length * size set }
    ensures written { (n : ℕ) (f : ℕ → List ℕ) → Below set n → ((i : ℕ) (e : Event) → i < 64 → has set i ≡ true → F.post make i e → event e.kind e.a e.b e.c e.mask ≡ f i)
        → Writes at (listed n (has set) f) events.old events.new result }
{
    let mut place = at;
    for i in Members(set) {
        write_event(&mut events[place..], make(i));
        place += EVENT;
    }
    place
}
