// A row: four fields, commas between, then CRLF or the end.
ghost use Rattle.std.specs.Prelude.{◌≡◌, ◌≤◌, length, drop};
ghost use Rattle.spreadsheet.specs.paper.Rows.{row_by};
ghost use Rattle.spreadsheet.specs.code.FieldSeen.{clean_at};
ghost use Rattle.spreadsheet.specs.code.RowSeen.{row_seen, row_within};

use crate::field::{Field, cell_at, last_at};

// Where each field starts and ends, and the next row.
#[derive(Drop)]
pub struct Cells {
    pub kind: usize,
    pub kind_end: usize,
    pub left: usize,
    pub left_end: usize,
    pub right: usize,
    pub right_end: usize,
    pub citation: usize,
    pub citation_end: usize,
    pub next: usize,
}

#[derive(Drop)]
pub enum Row {
    Four(Cells),
    Odd,
}

pub fn row_at(s: &[u8], at: usize) -> Row
    requires { at ≤ length s.now }
    ensures { (row_seen s.now result ≡ row_by clean_at (drop at s.now)) × row_within s.now at result }
{
    let Field::Text(k, k_end, a) = cell_at(s, at) else {
        return Row::Odd;
    };
    let Field::Text(l, l_end, b) = cell_at(s, a) else {
        return Row::Odd;
    };
    let Field::Text(r, r_end, d) = cell_at(s, b) else {
        return Row::Odd;
    };
    let Field::Text(c, c_end, next) = last_at(s, d) else {
        return Row::Odd;
    };
    Row::Four(Cells {
        kind: k,
        kind_end: k_end,
        left: l,
        left_end: l_end,
        right: r,
        right_end: r_end,
        citation: c,
        citation_end: c_end,
        next: next,
    })
}
