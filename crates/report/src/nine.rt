// Components at discretion as events of kind 9, kept rising at the start of the lent buffer while worlds go by.
ghost use Rattle.std.specs.Prelude.{◌≡◌, ◌+◌, ◌*◌, ◌≤◌, length};
ghost use Rattle.report.specs.paper.EventList.{event_length};
ghost use Rattle.report.specs.code.Nine.{PlaceOf, Inserted, PartListed, PartsListed};

use crate::event::{EVENT, Event, encode_event};
use sets::members::Members;

// How many are listed; `full` where one did not fit.
#[derive(Drop)]
pub struct Listing {
    pub count: usize,
    pub full: bool,
}

// Where an event stands among the n rising ones at the start, or else where it belongs.
fn place_of(s: &[u8], n: usize, e: &[u8; EVENT]) -> Result<usize, usize>
    requires { n * event_length ≤ length s.now }
    ensures { PlaceOf n e.now s.now result }
{
    s.as_chunks::<EVENT>().0[..n].binary_search(e)
}

// Puts an event among the n rising ones at the start; how many there are then.
pub fn insert(s: &mut [u8], n: usize, e: [u8; EVENT]) -> usize
    requires { n * event_length + event_length ≤ length s.old }
    ensures { Inserted n e s.old s.new result }
{
    match place_of(s, n, &e) {
        Ok(_) => n,
        Err(place) => {
            let at = place * EVENT;
            s.copy_within(at..n * EVENT, at + EVENT);
            s[at..at + EVENT].copy_from_slice(&e);
            n + 1
        }
    }
}

// One component more.
fn list_part(events: &mut [u8], listing: Listing, part: u64) -> Listing
    requires { listing.count * event_length ≤ length events.old }
    ensures { PartListed part listing events.old events.new result }
{
    if listing.full {
        return listing;
    }
    let e = encode_event(Event {
        kind: 9,
        a: 0,
        b: 0,
        c: 0,
        mask: part,
    });
    let n = listing.count;
    if n * EVENT + EVENT <= events.len() {
        Listing {
            count: insert(events, n, e),
            full: false,
        }
    } else {
        Listing {
            count: n,
            full: place_of(events, n, &e).is_err(),
        }
    }
}

// The components of a world, at these persons of a table.
pub fn list_parts(events: &mut [u8], listing: Listing, parts: &[u64; 64], heads: u64) -> Listing
    requires { listing.count * event_length ≤ length events.old }
    ensures { PartsListed parts.now heads listing events.old events.new result }
{
    let mut known = listing;
    for p in Members(heads) {
        known = list_part(events, known, parts[p]);
    }
    known
}
