// A line, LINE bytes, written into the rest of the lent buffer.
ghost use Rattle.std.specs.Prelude.{◌≡◌, true, ℕ, ◌*◌, ◌<◌, ◌≤◌, length, drop};
ghost use mathlib.Core.List.{List, ◌++◌, flat_map};
ghost use Rattle.sets.specs.paper.Sets.{has, size, members};
ghost use Rattle.report.specs.paper.Line.{line_bytes, bare_line, line_length};
ghost use Rattle.report.specs.declared.line.Line.{Line};
ghost use Rattle.report.specs.code.Written.{line_from};

use page::little::mask_bytes;
use sets::members::Members;

// the length of a line
pub const LINE: usize = 29;

#[derive(Drop)]
pub struct Line {
    pub person: u8,
    pub kind: u8,
    pub role: u8,
    pub block: u64,
    pub facts: u64,
    pub decisions: u16,
    pub citations: u64,
}

// Person, kind, role, block, open facts, open decisions, citations; each number's lowest byte first.
#[tactic(auto, unfolding(page::specs::Little::little_bytes, crate::specs::paper::Line::line_bytes))]
pub fn encode(l: Line) -> [u8; LINE]
    ensures { result ≡ line_bytes (line_from l) }
{
    let mut bytes = [0; LINE];
    bytes[..3].copy_from_slice(&[l.person, l.kind, l.role]);
    bytes[3..11].copy_from_slice(&mask_bytes(l.block));
    bytes[11..19].copy_from_slice(&mask_bytes(l.facts));
    bytes[19..21].copy_from_slice(&l.decisions.to_le_bytes());
    bytes[21..].copy_from_slice(&mask_bytes(l.citations));
    bytes
}

// Fills the first LINE bytes.
pub fn write_line(rest: &mut [u8], l: Line)
    requires { line_length ≤ length rest.old }
    ensures { rest.new ≡ line_bytes (line_from l) ++ drop line_length rest.old }
{
    rest[..LINE].copy_from_slice(&encode(l));
}

// A line for each of these persons, rising, from the start on.
pub fn write_each<F: Fn(usize) -> Line>(lines: &mut [u8], persons: u64, make: F)
    requires room { line_length * size persons ≤ length lines.old }
    requires made { (p : ℕ) → p < 64 → has persons p ≡ true → F.pre make p }
    ensures { (f : ℕ → List ℕ) → ((p : ℕ) (l : Line) → p < 64 → has persons p ≡ true → F.post make p l → line_bytes (line_from l) ≡ f p)
        → lines.new ≡ flat_map f (members persons) ++ drop (line_length * size persons) lines.old }
{
    let mut at = 0;
    for p in Members(persons) {
        write_line(&mut lines[at..], make(p));
        at += LINE;
    }
}

// A line of this kind for each of these persons, rising, and nothing else in it.
pub fn write_bare(lines: &mut [u8], persons: u64, kind: u8)
    requires { line_length * size persons ≤ length lines.old }
    ensures { lines.new ≡ flat_map (λ p. line_bytes (bare_line kind p)) (members persons) ++ drop (line_length * size persons) lines.old }
{
    write_each(
        lines,
        persons,
        |p| Line {
            person: p as u8,
            kind,
            role: 0,
            block: 0,
            facts: 0,
            decisions: 0,
            citations: 0,
        },
    );
}
