// Readers of fields by their place: each answers the field's value and the place after it, or that the record is cut short or out of range.
pub mod judge;
pub mod lists;
pub mod passing;

ghost use Rattle.std.specs.Prelude.{◌≡◌, [], ◌∷◌, ◌+◌, ◌*◌, ◌≤◌, ◌<◌, length, get_or};
ghost use Rattle.records.specs.paper.Fields.{got, byte_at, bytes_at, bytes, list, most, repeat, up_to, little, mask, election};
ghost use Rattle.records.specs.code.Readers.{field_read, wide_read, short_read, election_read, list_read, list_fits, pairs_read, pairs_fit, map_read, first, is_got, field_if, bytes_from};
ghost use Rattle.records.specs.paper.Plan.{election_from};
ghost use Rattle.records.specs.code.Decoded.{no_election};

use crate::plan::Election;

// the highest person, citation and evidence that a field holds; the lowest is 0
pub const PERSON: u8 = 63;

pub const CITATION: u8 = 63;

pub const EVIDENCE: u8 = 63;

#[derive(Drop)]
pub enum Field {
    Got(u8, usize),
    Bad,
}

// a mask
#[derive(Drop)]
pub enum Wide {
    Got(u64, usize),
    Bad,
}

// two bytes
#[derive(Drop)]
pub enum Short {
    Got(u16, usize),
    Bad,
}

// a list: the place of its first entry, and how many there are
#[derive(Drop)]
pub enum Listed {
    Got(usize, u8, usize),
    Bad,
}

#[derive(Drop)]
pub enum Elected {
    Got(Election, usize),
    Bad,
}

// A byte as a wider number: for callers elsewhere, as here std's `From` serves.
pub fn to_u16(x: u8) -> u16
    ensures { (result ≡ x) × (result < 256) }
{
    u16::from(x)
}

// a byte from `low` to `top`
pub fn byte_at(s: &[u8], at: usize, low: u8, top: u8) -> Field
    ensures { field_read result ≡ byte_at s.now at (record { low = low; top = top }) }
{
    if at < s.len() {
        if low <= s[at] {
            if s[at] <= top {
                return Field::Got(s[at], at + 1);
            }
        }
    }
    Field::Bad
}

// a byte if its bit stands, else 0
pub fn opt_at(s: &[u8], at: usize, present: bool, low: u8, top: u8) -> Field
    ensures { field_read result ≡ map_read first (field_if present s.now at (bytes (record { low = low; top = top } ∷ []))) }
{
    if present {
        byte_at(s, at, low, top)
    } else {
        Field::Got(0, at)
    }
}

// four bytes, the lowest first
fn word_at(s: &[u8], at: usize) -> u64
    requires { at + 4 ≤ length s.now }
    ensures { (result ≡ little (bytes_from s.now at 4)) × (result < 4294967296) × (bytes_at s.now at (repeat 4 (up_to 255 ∷ [])) ≡ got (bytes_from s.now at 4) (at + 4)) }
{
    let a = u64::from(s[at]);
    let b = u64::from(s[at + 1]);
    let c = u64::from(s[at + 2]);
    let d = u64::from(s[at + 3]);
    a + b * 256 + c * 65536 + d * 16777216
}

// the eight bytes of a mask if its bit stands, else nobody
pub fn mask_at(s: &[u8], at: usize, present: bool) -> Wide
    ensures { wide_read result ≡ map_read little (field_if present s.now at mask) }
{
    if !present {
        return Wide::Got(0, at);
    }
    if at < s.len() {
        if 8 <= s.len() - at {
            let low = word_at(s, at);
            let high = word_at(s, at + 4);
            return Wide::Got(low + high * 4294967296, at + 8);
        }
    }
    Wide::Bad
}

// two bytes, 0 to 4,096, if their bit stands, else 0
pub fn short_at(s: &[u8], at: usize, present: bool) -> Short
    ensures { short_read result ≡ map_read little (field_if present s.now at most) }
{
    if !present {
        return Short::Got(0, at);
    }
    let Field::Got(low, p) = byte_at(s, at, 0, 255) else {
        return Short::Bad;
    };
    let Field::Got(high, q) = byte_at(s, p, 0, 255) else {
        return Short::Bad;
    };
    let value = u16::from(low) + u16::from(high) * 256;
    if value <= 4096 {
        return Short::Got(value, q);
    }
    Short::Bad
}

pub fn no_election() -> Election
    ensures { result ≡ no_election }
{
    Election {
        given: false,
        fact: 0,
        actor: 0,
        policy: 0,
        citation: 0,
    }
}

// the four bytes of an election if its bit stands
pub fn election_at(s: &[u8], at: usize, present: bool) -> Elected
    ensures { election_read result ≡ map_read election_from (field_if present s.now at election) }
{
    if !present {
        return Elected::Got(no_election(), at);
    }
    let Field::Got(fact, p) = byte_at(s, at, 0, 255) else {
        return Elected::Bad;
    };
    let Field::Got(actor, q) = byte_at(s, p, 1, 255) else {
        return Elected::Bad;
    };
    let Field::Got(policy, r) = byte_at(s, q, 0, 2) else {
        return Elected::Bad;
    };
    let Field::Got(citation, t) = byte_at(s, r, 0, CITATION) else {
        return Elected::Bad;
    };
    let election = Election {
        given: true,
        fact: fact,
        actor: actor,
        policy: policy,
        citation: citation,
    };
    Elected::Got(election, t)
}

// whether n bytes from a place on are there and at most `top`
fn entries_stand(s: &[u8], at: usize, n: usize, top: u8) -> bool
    ensures { result ≡ is_got (bytes_at s.now at (repeat n (up_to top ∷ []))) }
{
    let mut p = at;
    for i in 0..n {
        let Field::Got(value, next) = byte_at(s, p, 0, top) else {
            return false;
        };
        p = next;
    }
    true
}

// whether n pairs of bytes from a place on are there: the first at most `top`, the second from `low` to `high`
fn pairs_stand(s: &[u8], at: usize, n: usize, top: u8, low: u8, high: u8) -> bool
    ensures { result ≡ is_got (bytes_at s.now at (repeat n (up_to top ∷ record { low = low; top = high } ∷ []))) }
{
    let mut p = at;
    for i in 0..n {
        let Field::Got(one, q) = byte_at(s, p, 0, top) else {
            return false;
        };
        let Field::Got(two, r) = byte_at(s, q, low, high) else {
            return false;
        };
        p = r;
    }
    true
}

// a counted list of bytes if its bit stands, else an empty one
pub fn list_at(s: &[u8], at: usize, present: bool, limit: u8, top: u8) -> Listed
    ensures { (list_read s.now result ≡ field_if present s.now at (list limit (up_to top ∷ []))) × list_fits limit s.now result }
{
    if !present {
        return Listed::Got(0, 0, at);
    }
    let Field::Got(count, first) = byte_at(s, at, 0, limit) else {
        return Listed::Bad;
    };
    let n = usize::from(count);
    if entries_stand(s, first, n, top) {
        return Listed::Got(first, count, first + n);
    }
    Listed::Bad
}

// a counted list of pairs of bytes if its bit stands, else an empty one
pub fn pairs_at(s: &[u8], at: usize, present: bool, limit: u8, top: u8, low: u8, high: u8) -> Listed
    ensures { (pairs_read s.now result ≡ field_if present s.now at (list limit (up_to top ∷ record { low = low; top = high } ∷ []))) × pairs_fit limit s.now result }
{
    if !present {
        return Listed::Got(0, 0, at);
    }
    let Field::Got(count, first) = byte_at(s, at, 0, limit) else {
        return Listed::Bad;
    };
    let n = usize::from(count);
    if pairs_stand(s, first, n, top, low, high) {
        return Listed::Got(first, count, first + n * 2);
    }
    Listed::Bad
}
