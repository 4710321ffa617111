// A field of a row: where its text starts and ends, and the place behind it.
ghost use Rattle.std.specs.Prelude.{◌≡◌, ◌+◌, ◌≤◌, ◌<◌, length, drop, get_or};
ghost use Rattle.spreadsheet.specs.paper.Quoting.{strange as strange_byte, ends as ends_text, quoted, plain};
ghost use Rattle.spreadsheet.specs.paper.Rows.{comma, last};
ghost use Rattle.spreadsheet.specs.code.FieldSeen.{until, clean, clean_at, field_seen, within, past};

// Text: where the text starts and ends, and the place behind the field. Odd: broken, or a quote, CR or LF in the text.
#[derive(Drop)]
pub enum Field {
    Text(usize, usize, usize),
    Odd,
}

fn strange(b: u8) -> bool
    ensures { result ≡ strange_byte b }
{
    if b == b'"' {
        return true;
    }
    if b == b'\r' {
        return true;
    }
    b == b'\n'
}

fn ends(b: u8) -> bool
    ensures { result ≡ ends_text b }
{
    if b == b',' {
        return true;
    }
    strange(b)
}

// Up to a comma, a quote or the row's end.
fn plain_end(s: &[u8], at: usize) -> usize
    requires { at ≤ length s.now }
    ensures { (result ≡ at + until ends_text (drop at s.now)) × (result ≤ length s.now) }
{
    let mut i = at;
    while i < s.len() {
        if ends(s[i]) {
            return i;
        }
        i += 1;
    }
    i
}

// Up to a quote, CR or LF.
fn quoted_end(s: &[u8], at: usize) -> usize
    requires { at ≤ length s.now }
    ensures { (result ≡ at + until strange_byte (drop at s.now)) × (result ≤ length s.now) }
{
    let mut i = at;
    while i < s.len() {
        if strange(s[i]) {
            return i;
        }
        i += 1;
    }
    i
}

// The byte at a place, 0 behind the end.
fn peek(s: &[u8], at: usize) -> u8
    ensures { (result ≡ get_or s.now at 0) × ((0 < result) → at < length s.now) }
{
    if at < s.len() {
        return s[at];
    }
    0
}

// Without quotes.
fn plain_field(s: &[u8], at: usize) -> Field
    requires { at ≤ length s.now }
    ensures { (field_seen s.now result ≡ clean (plain (drop at s.now))) × within s.now at result }
{
    let e = plain_end(s, at);
    Field::Text(at, e, e)
}

// Behind the opening quote.
fn quoted_field(s: &[u8], at: usize) -> Field
    requires { at ≤ length s.now }
    ensures { (field_seen s.now result ≡ clean (quoted 0 (drop at s.now))) × within s.now at result }
{
    let e = quoted_end(s, at);
    if peek(s, e) != b'"' {
        return Field::Odd;
    }
    let n = e + 1;
    if peek(s, n) == b'"' {
        return Field::Odd;
    }
    Field::Text(at, e, n)
}

fn field_at(s: &[u8], at: usize) -> Field
    requires { at ≤ length s.now }
    ensures { (field_seen s.now result ≡ clean_at (drop at s.now)) × within s.now at result }
{
    if peek(s, at) == b'"' {
        return quoted_field(s, at + 1);
    }
    plain_field(s, at)
}

// A field and the comma behind it.
pub fn cell_at(s: &[u8], at: usize) -> Field
    requires { at ≤ length s.now }
    ensures { (field_seen s.now result ≡ comma (clean_at (drop at s.now))) × (within s.now at result × past at result) }
{
    let Field::Text(a, e, n) = field_at(s, at) else {
        return Field::Odd;
    };
    if peek(s, n) == b',' {
        return Field::Text(a, e, n + 1);
    }
    Field::Odd
}

// A field and the row's end behind it.
pub fn last_at(s: &[u8], at: usize) -> Field
    requires { at ≤ length s.now }
    ensures { (field_seen s.now result ≡ last (clean_at (drop at s.now))) × within s.now at result }
{
    let Field::Text(a, e, n) = field_at(s, at) else {
        return Field::Odd;
    };
    if n >= s.len() {
        return Field::Text(a, e, n);
    }
    if peek(s, n) != b'\r' {
        return Field::Odd;
    }
    let m = n + 1;
    if peek(s, m) != b'\n' {
        return Field::Odd;
    }
    Field::Text(a, e, m + 1)
}
