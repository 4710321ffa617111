// The rows of the table, and the row of a refusal.
ghost use Rattle.std.specs.Prelude.{◌≡◌, cond, ◌∷◌, ◌+◌, ◌*◌, ◌≤◌, length};
ghost use Rattle.sets.specs.paper.Sets.{members};
ghost use Rattle.page.specs.Page.{puts};
ghost use Rattle.page.specs.Decimal.{decimal};
ghost use Rattle.report.specs.paper.Line.{line_length};
ghost use Rattle.report.specs.paper.LineAt.{lines_from};
ghost use Rattle.listing.specs.Text.{persons, cell, row_of, rows, refused_row};
ghost use Rattle.listing.specs.Listing.{longest};

use billing::fields::{Fields, fields_at};
use page::number::put_number;
use page::{put, put_all};
use sets::members::Members;

// A person, behind a comma if another stands before.
fn put_person(out: &mut [u8], at: usize, p: usize, first: bool) -> usize
    ensures { record { count = result; out = out.new } ≡ puts (record { count = at; out = out.old }) (cond first (decimal p) (44 ∷ decimal p)) }
{
    if first {
        return put_number(out, at, p);
    }
    let next = put(out, at, b',');
    put_number(out, next, p)
}

// The persons of a block, rising, or "-".
pub fn put_persons(out: &mut [u8], at: usize, block: u64) -> usize
    ensures { record { count = result; out = out.new } ≡ puts (record { count = at; out = out.old }) (persons (members block)) }
{
    let mut next = at;
    let mut first = true;
    for p in Members(block) {
        next = put_person(out, next, p, first);
        first = false;
    }
    if first {
        return put(out, next, b'-');
    }
    next
}

// A number and the space behind it.
fn put_cell(out: &mut [u8], at: usize, n: u8) -> usize
    ensures { record { count = result; out = out.new } ≡ puts (record { count = at; out = out.old }) (cell n) }
{
    let next = put_number(out, at, usize::from(n));
    put(out, next, b' ')
}

fn put_row(out: &mut [u8], at: usize, line: Fields) -> usize
    ensures { record { count = result; out = out.new } ≡ puts (record { count = at; out = out.old }) (row_of line.person line.kind line.role line.block) }
{
    let mut next = put_cell(out, at, line.person);
    next = put_cell(out, next, line.kind);
    next = put_cell(out, next, line.role);
    next = put_persons(out, next, line.block);
    put(out, next, b'\n')
}

// A row for each of the first n lines.
pub fn put_rows(out: &mut [u8], at: usize, lines: &[u8], n: usize) -> usize
    requires { line_length * n ≤ length lines.now }
    ensures { record { count = result; out = out.new } ≡ puts (record { count = at; out = out.old }) (rows (lines_from lines.now 0 n)) }
{
    let mut next = at;
    for k in 0..n {
        let line = fields_at(lines, k);
        next = put_row(out, next, line);
    }
    next
}

pub fn put_refused(out: &mut [u8], at: usize, number: u8, k: usize) -> usize
    ensures out_after { record { count = result; out = out.new } ≡ puts (record { count = at; out = out.old }) (refused_row number k) }
    ensures k_len_bound { length (refused_row number k) ≤ longest }
{
    let mut next = put_all(out, at, b"refused ");
    next = put_cell(out, next, number);
    next = put_number(out, next, k);
    put(out, next, b'\n')
}
