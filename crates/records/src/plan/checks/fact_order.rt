// The order of facts: booleans first, then rising by family and tuple, a prefix first.
ghost use Rattle.std.specs.Prelude.{◌≡◌, true, ◌≤◌, take};
ghost use Rattle.sets.specs.paper.Sets.{lex_less};
ghost use Rattle.records.specs.paper.Plan.{rises};
ghost use Rattle.records.specs.code.Decoded.{fact_of};

use crate::plan::Fact;

pub fn tuple_less(a: [u8; 4], m: u8, b: [u8; 4], n: u8) -> bool
    requires { (m ≤ 4) × (n ≤ 4) }
    ensures { result ≡ lex_less (take m a) (take n b) }
{
    let j = usize::from(m);
    let k = usize::from(n);
    for i in 0..j {
        if k <= i {
            return false;
        }
        if a[i] != b[i] {
            return a[i] < b[i];
        }
    }
    j < k
}

pub fn fact_rises(a: Fact, b: Fact) -> bool
    requires { (a.count ≤ 4) × (b.count ≤ 4) × (a.boolean ≡ true → a.count ≡ 0) }
    ensures { result ≡ rises (fact_of a) (fact_of b) }
{
    if b.boolean {
        return a.boolean;
    }
    if a.boolean {
        return true;
    }
    if a.family != b.family {
        return a.family < b.family;
    }
    let x = a.tuple;
    let y = b.tuple;
    tuple_less(x, a.count, y, b.count)
}
