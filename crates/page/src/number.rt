// A number in base ten, put into a lent buffer.
ghost use Rattle.std.specs.Prelude.{◌≡◌};
ghost use Rattle.page.specs.Page.{puts};
ghost use Rattle.page.specs.Decimal.{decimal};

use crate::put;

// The digits before the last, then the last.
pub fn put_number(out: &mut [u8], at: usize, n: usize) -> usize
    ensures { record { count = result; out = out.new } ≡ puts (record { count = at; out = out.old }) (decimal n) }
{
    if n < 10 {
        return put(out, at, 48 + n as u8);
    }
    let next = put_number(out, at, n / 10);
    put(out, next, 48 + (n % 10) as u8)
}
