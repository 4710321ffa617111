// A row's rule, and the header.
ghost use Rattle.std.specs.Prelude.{◌≡◌, ◌≤◌, ◌<◌, length, drop};
ghost use Rattle.spreadsheet.specs.paper.Rows.{row_of};
ghost use Rattle.spreadsheet.specs.paper.RowRules.{edge_rule, status_rule, rule_of, header_of};
ghost use Rattle.spreadsheet.specs.code.FieldSeen.{between};
ghost use Rattle.spreadsheet.specs.code.RowSeen.{CellsStand, cells_seen};
ghost use Rattle.spreadsheet.specs.code.RuleSeen.{rule_seen, leaves, rule_within, start_seen, start_within};

use crate::number::{Number, number_in};
use crate::row::{Cells, Row, row_at};
use crate::word::same_in;
use records::fields::{CITATION, PERSON};
use records::plan::Status;

// What a row says of an edge.
#[derive(Drop)]
pub struct Ends {
    pub combination: bool,
    pub left: u8,
    pub right: u8,
    pub citation: u8,
}

// A rule and the place of the next row.
#[derive(Drop)]
pub enum Rule {
    Joins(Ends, usize),
    Marks(Status, usize),
    Bad,
}

// The place behind the header.
#[derive(Drop)]
pub enum Start {
    Behind(usize),
    None,
}

fn edge_in(s: &[u8], q: Cells, combination: bool) -> Rule
    requires { CellsStand s.now q }
    ensures { (rule_seen s.now result ≡ edge_rule combination (between s.now q.left q.left_end) (between s.now q.right q.right_end) (between s.now q.citation q.citation_end) (drop q.next s.now)) × leaves q.next result }
{
    let Number::Is(left) = number_in(s, q.left, q.left_end, PERSON) else {
        return Rule::Bad;
    };
    let Number::Is(right) = number_in(s, q.right, q.right_end, PERSON) else {
        return Rule::Bad;
    };
    let Number::Is(citation) = number_in(s, q.citation, q.citation_end, CITATION) else {
        return Rule::Bad;
    };
    let ends = Ends {
        combination: combination,
        left: left,
        right: right,
        citation: citation,
    };
    Rule::Joins(ends, q.next)
}

fn status_in(s: &[u8], q: Cells) -> Rule
    requires { CellsStand s.now q }
    ensures { (rule_seen s.now result ≡ status_rule (between s.now q.left q.left_end) (between s.now q.right q.right_end) (between s.now q.citation q.citation_end) (drop q.next s.now)) × leaves q.next result }
{
    if q.right < q.right_end {
        return Rule::Bad;
    }
    let Number::Is(person) = number_in(s, q.left, q.left_end, PERSON) else {
        return Rule::Bad;
    };
    let Number::Is(citation) = number_in(s, q.citation, q.citation_end, CITATION) else {
        return Rule::Bad;
    };
    let status = Status {
        person: person,
        condition: 0,
        citation: citation,
    };
    Rule::Marks(status, q.next)
}

fn rule_in(s: &[u8], q: Cells) -> Rule
    requires { CellsStand s.now q }
    ensures { (rule_seen s.now result ≡ rule_of (cells_seen s.now q)) × leaves q.next result }
{
    let from = q.kind;
    let to = q.kind_end;
    if same_in(s, from, to, b"base") {
        return edge_in(s, q, false);
    }
    if same_in(s, from, to, b"combination") {
        return edge_in(s, q, true);
    }
    if same_in(s, from, to, b"status") {
        return status_in(s, q);
    }
    Rule::Bad
}

pub fn rule_at(s: &[u8], at: usize) -> Rule
    requires { at ≤ length s.now }
    ensures { (rule_seen s.now result ≡ rule_of (row_of (drop at s.now))) × rule_within s.now at result }
{
    let Row::Four(q) = row_at(s, at) else {
        return Rule::Bad;
    };
    rule_in(s, q)
}

fn header_in(s: &[u8], q: Cells) -> Start
    requires { CellsStand s.now q × (0 < q.next) }
    ensures { (start_seen s.now result ≡ header_of (cells_seen s.now q)) × start_within s.now result }
{
    if !same_in(s, q.kind, q.kind_end, b"kind") {
        return Start::None;
    }
    if !same_in(s, q.left, q.left_end, b"left") {
        return Start::None;
    }
    if !same_in(s, q.right, q.right_end, b"right") {
        return Start::None;
    }
    if !same_in(s, q.citation, q.citation_end, b"citation") {
        return Start::None;
    }
    Start::Behind(q.next)
}

pub fn header(s: &[u8]) -> Start
    ensures { (start_seen s.now result ≡ header_of (row_of s.now)) × start_within s.now result }
{
    let Row::Four(q) = row_at(s, 0) else {
        return Start::None;
    };
    header_in(s, q)
}
