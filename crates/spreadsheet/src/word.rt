// A field that is a given word.
ghost use Rattle.std.specs.Prelude.{◌≡◌, ◌≤◌, length};
ghost use Rattle.spreadsheet.specs.paper.RowRules.{same};
ghost use Rattle.spreadsheet.specs.code.FieldSeen.{between};

pub fn same_in(s: &[u8], from: usize, to: usize, word: &[u8]) -> bool
    requires { (from ≤ to) × (to ≤ length s.now) }
    ensures { result ≡ same (between s.now from to) word.now }
{
    let mut i = from;
    let mut j = 0;
    while i < to {
        if j >= word.len() {
            return false;
        }
        if s[i] != word[j] {
            return false;
        }
        i += 1;
        j += 1;
    }
    if j < word.len() {
        return false;
    }
    true
}
