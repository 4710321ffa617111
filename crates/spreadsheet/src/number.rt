// A number in base ten.
ghost use Rattle.std.specs.Prelude.{◌≡◌, ◌≤◌, length};
ghost use Rattle.spreadsheet.specs.paper.Numerals.{leads, decimal_from, number_of};
ghost use Rattle.spreadsheet.specs.code.FieldSeen.{between};
ghost use Rattle.spreadsheet.specs.code.NumberSeen.{number_seen};

#[derive(Drop)]
pub enum Number {
    Is(u8),
    Not,
}

// At least one digit, and no 0 before another.
fn leads_in(s: &[u8], from: usize, to: usize) -> bool
    requires { (from ≤ to) × (to ≤ length s.now) }
    ensures { result ≡ leads (between s.now from to) }
{
    if from >= to {
        return false;
    }
    if from + 1 >= to {
        return true;
    }
    s[from] != b'0'
}

// A number that is past `top` ends the reading, so that no row of digits wraps.
fn decimal_in(s: &[u8], from: usize, to: usize, top: u8) -> Number
    requires { (from ≤ to) × (to ≤ length s.now) }
    ensures { number_seen result ≡ decimal_from top 0 (between s.now from to) }
{
    let most = usize::from(top);
    let mut v: usize = 0;
    for i in from..to {
        let b = usize::from(s[i]);
        if b < 48 {
            return Number::Not;
        }
        if b > 57 {
            return Number::Not;
        }
        v = 10 * v + (b - 48);
        if v > most {
            return Number::Not;
        }
    }
    Number::Is(v as u8)
}

pub fn number_in(s: &[u8], from: usize, to: usize, top: u8) -> Number
    requires { (from ≤ to) × (to ≤ length s.now) }
    ensures { number_seen result ≡ number_of top (between s.now from to) }
{
    if leads_in(s, from, to) {
        return decimal_in(s, from, to, top);
    }
    Number::Not
}
