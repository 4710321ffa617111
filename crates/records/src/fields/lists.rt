// The entries of a list that was read, copied out of the bytes.
ghost use Rattle.std.specs.Prelude.{◌≡◌, ◌+◌, ◌*◌, ◌≤◌, length, take};
ghost use Rattle.records.specs.paper.Case as case;
ghost use Rattle.records.specs.paper.Plan as paper;
ghost use Rattle.records.specs.code.Decoded.{numbers_of, decisions_of, observations_of};
ghost use Rattle.records.specs.code.Readers.{bytes_from};

use crate::case::Observations;
use crate::plan::{Decisions, Numbers};

pub fn numbers_from(s: &[u8], first: usize, count: u8) -> Numbers
    requires { (count ≤ 16) × (first + count ≤ length s.now) }
    ensures { numbers_of result ≡ bytes_from s.now first count }
{
    let n = usize::from(count);
    let mut items = [0u8; 16];
    for i in 0..n {
        items[i] = s[first + i];
    }
    Numbers {
        count: count,
        items: items,
    }
}

pub fn tuple_from(s: &[u8], first: usize, count: u8) -> [u8; 4]
    requires { (count ≤ 4) × (first + count ≤ length s.now) }
    ensures { take count result ≡ bytes_from s.now first count }
{
    let n = usize::from(count);
    let mut items = [0u8; 4];
    for i in 0..n {
        items[i] = s[first + i];
    }
    items
}

pub fn decisions_from(s: &[u8], first: usize, count: u8) -> Decisions
    requires { (count ≤ 64) × (first + count * 2 ≤ length s.now) }
    ensures { (decisions_of result ≡ paper.decisions_from (bytes_from s.now first (count * 2))) × (result.count ≡ count) }
{
    let n = usize::from(count);
    let mut edges = [0u8; 64];
    let mut verdicts = [0u8; 64];
    for i in 0..n {
        edges[i] = s[first + i * 2];
        verdicts[i] = s[first + i * 2 + 1];
    }
    Decisions {
        count: count,
        edges: edges,
        verdicts: verdicts,
    }
}

pub fn observations_from(s: &[u8], first: usize, count: u8) -> Observations
    requires { (count ≤ 16) × (first + count * 2 ≤ length s.now) }
    ensures { observations_of result ≡ case.observations_from (bytes_from s.now first (count * 2)) }
{
    let n = usize::from(count);
    let mut values = [0u8; 16];
    let mut evidence = [0u8; 16];
    for i in 0..n {
        values[i] = s[first + i * 2];
        evidence[i] = s[first + i * 2 + 1];
    }
    Observations {
        count: count,
        values: values,
        evidence: evidence,
    }
}
