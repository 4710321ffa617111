// An edge put into a lent buffer.
ghost use Rattle.std.specs.Prelude.{⊤};
ghost use Rattle.records.specs.paper.Plan.{plan_formats};
ghost use Rattle.records.specs.code.Decoded.{edge_of};
ghost use Rattle.encoding.specs.paper.Encoded.{record_bytes, edge_raw};

use crate::bits::weigh;
use crate::each::Record;
use crate::lists::{any, put_list};
use page::put_all;
use records::plan::Edge;

impl Record for Edge {
    ghost bytes = { λ e. record_bytes plan_formats (edge_raw (edge_of e)) };

    ghost fits = { λ _. ⊤ };

    fn put(self, out: &mut [u8], at: usize) -> usize {
        let bits = 15 + weigh(any(self.defeaters), 16) + weigh(self.combination, 32);
        let head = [
            4,
            bits,
            self.left,
            self.right,
            self.condition,
            self.citation,
        ];
        let next = put_all(out, at, &head);
        put_list(out, next, self.defeaters)
    }
}
