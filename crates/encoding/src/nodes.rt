// A node put into a lent buffer.
ghost use Rattle.std.specs.Prelude.{◌≡◌, ⊤, length};
ghost use mathlib.Core.List.{◌∷◌};
ghost use Rattle.records.specs.paper.Plan.{plan_formats};
ghost use Rattle.records.specs.code.Decoded.{numbers_of, node_of};
ghost use Rattle.page.specs.Page.{puts};
ghost use Rattle.encoding.specs.paper.Encoded.{record_bytes, node_raw};

use crate::each::Record;
use page::put_all;
use records::plan::{Node, Numbers};

// An And or an Or: an empty list stays.
fn put_children(out: &mut [u8], at: usize, bits: u8, list: Numbers) -> usize
    ensures { record { count = result; out = out.new } ≡ puts (record { count = at; out = out.old }) (3 ∷ bits ∷ length (numbers_of list) ∷ numbers_of list) }
{
    let n = usize::from(list.count).min(16);
    let next = put_all(out, at, &[3, bits, n as u8]);
    put_all(out, next, &list.items[..n])
}

impl Record for Node {
    ghost bytes = { λ n. record_bytes plan_formats (node_raw (node_of n)) };

    ghost fits = { λ _. ⊤ };

    fn put(self, out: &mut [u8], at: usize) -> usize {
        match self.sort {
            0 => put_all(out, at, &[3, 1, self.number]),
            1 => put_all(out, at, &[3, 2, self.number]),
            2 => put_children(out, at, 4, self.children),
            3 => put_children(out, at, 8, self.children),
            _ => put_all(out, at, &[3, 16, self.number]),
        }
    }
}
