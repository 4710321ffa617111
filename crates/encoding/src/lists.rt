// A list of numbers as a field: a count byte and its entries.
ghost use Rattle.std.specs.Prelude.{◌≡◌};
ghost use Rattle.records.specs.code.Decoded.{numbers_of};
ghost use Rattle.page.specs.Page.{puts};
ghost use Rattle.encoding.specs.paper.Encoded.{some};
ghost use Rattle.encoding.specs.code.Written.{list_bytes};

use page::{put, put_all};
use records::plan::Numbers;

// Whether it has any.
pub fn any(list: Numbers) -> bool
    ensures { result ≡ some (numbers_of list) }
{
    list.count > 0
}

// "A list is a count byte and its entries", and an empty one is absent.
pub fn put_list(out: &mut [u8], at: usize, list: Numbers) -> usize
    ensures { record { count = result; out = out.new } ≡ puts (record { count = at; out = out.old }) (list_bytes (numbers_of list)) }
{
    let n = usize::from(list.count).min(16);
    if n == 0 {
        return at;
    }
    let next = put(out, at, n as u8);
    put_all(out, next, &list.items[..n])
}
