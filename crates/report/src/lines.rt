// The lines of all persons, from what the worlds add up to.
ghost use Rattle.std.specs.Prelude.{◌≡◌, ◌*◌, ◌≤◌, ◌<◌, ◌%◌, length};
ghost use Rattle.sets.specs.paper.Sets.{size};
ghost use Rattle.report.specs.paper.Line.{holding as holding_of, line_length};
ghost use Rattle.report.specs.code.Written.{LineBy, LinesBy};

use crate::line::{Line, write_each};
use crate::sums::{BLOCKS, CITATIONS, DIFFERING, KINDS, MARKED, ROLES, STANDING, Sums, TALLY};
use sets::bit;
use sets::persons::has_person;

// The variables that could still concern a person: the numbers of the sets of influence that hold the person.
fn unresolved_for_person(sets: &[u64], p: u8) -> u64
    requires { length sets.now ≤ 64 }
    ensures { result ≡ holding_of sets.now p }
{
    let mut found: u64 = 0;
    for i in 0..sets.len() {
        if has_person(sets[i], p) {
            found |= bit(i as u8);
        }
    }
    found
}

fn low_byte(x: u64) -> u8
    ensures { result ≡ x % 256 }
{
    (x % 256) as u8
}

// The line of a person whom these facts and decisions could still concern.
#[tactic(auto, using(crate::proofs::WriteLaws::each_line))]
fn line_of(sums: &Sums, p: usize, facts: u64, decisions: u16) -> Line
    requires { p < 64 }
    ensures { LineBy sums.now p facts decisions result }
{
    let person = p as u8;
    if !has_person(sums[TALLY][STANDING], person) {
        let marked = has_person(sums[TALLY][MARKED], person);
        return Line {
            person,
            kind: if marked { low_byte(sums[KINDS][p]) } else { 1 },
            role: 0,
            block: 0,
            facts,
            decisions,
            citations: 0,
        };
    }
    let block = sums[BLOCKS][p];
    let citations = sums[CITATIONS][p];
    if has_person(sums[TALLY][DIFFERING], person) {
        Line {
            person,
            kind: 2,
            role: 0,
            block,
            facts,
            decisions,
            citations,
        }
    } else {
        Line {
            person,
            kind: 0,
            role: low_byte(sums[ROLES][p]),
            block,
            facts: 0,
            decisions: 0,
            citations,
        }
    }
}

// A line for each of these persons, rising; facts and decisions by their influence.
pub fn write_lines(lines: &mut [u8], sums: &Sums, persons: u64, facts: &[u64], decisions: &[u64])
    requires { (line_length * size persons ≤ length lines.old) × (length facts.now ≤ 64) × (length decisions.now ≤ 16) }
    ensures { LinesBy sums.now persons facts.now decisions.now lines.old lines.new }
{
    write_each(lines, persons, |p| {
        let open_facts = unresolved_for_person(facts, p as u8);
        let open_decisions = unresolved_for_person(decisions, p as u8);
        line_of(sums, p, open_facts, open_decisions as u16)
    });
}
