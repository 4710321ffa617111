// The fields of a line that the table shows, read out of the buffer of lines.
ghost use Rattle.std.specs.Prelude.{◌≡◌, ◌+◌, ◌*◌, ◌≤◌, length, take, drop};
ghost use Rattle.records.specs.paper.Fields.{little};
ghost use Rattle.report.specs.paper.Line.{line_length};
ghost use Rattle.report.specs.paper.LineAt.{line_at, decoded};
ghost use Rattle.billing.specs.Shown.{Shows};

use report::line::LINE;

#[derive(Clone, Copy)]
pub struct Fields {
    pub person: u8,
    pub kind: u8,
    pub role: u8,
    pub block: u64,
}

// Eight bytes from the fourth on, the lowest first.
fn block_of(line: &[u8]) -> u64
    requires { 11 ≤ length line.now }
    ensures { result ≡ little (take 8 (drop 3 line.now)) }
{
    u64::from_le_bytes([
        line[3], line[4], line[5], line[6], line[7], line[8], line[9], line[10],
    ])
}

fn fields_of(line: &[u8]) -> Fields
    requires { line_length ≤ length line.now }
    ensures { Shows (decoded line.now) result }
{
    Fields {
        person: line[0],
        kind: line[1],
        role: line[2],
        block: block_of(line),
    }
}

// Line k.
pub fn fields_at(lines: &[u8], k: usize) -> Fields
    requires { line_length * k + line_length ≤ length lines.now }
    ensures { Shows (decoded (line_at lines.now k)) result }
{
    let from = LINE * k;
    fields_of(&lines[from..from + LINE])
}
