// A bar put into a lent buffer.
ghost use Rattle.std.specs.Prelude.{⊤};
ghost use Rattle.records.specs.paper.Plan.{plan_formats};
ghost use Rattle.records.specs.code.Decoded.{bar_of};
ghost use Rattle.encoding.specs.paper.Encoded.{record_bytes, bar_raw};

use crate::each::Record;
use page::little::mask_bytes;
use page::put_all;
use records::plan::Bar;

impl Record for Bar {
    ghost bytes = { λ b. record_bytes plan_formats (bar_raw (bar_of b)) };

    ghost fits = { λ _. ⊤ };

    fn put(self, out: &mut [u8], at: usize) -> usize {
        let mut next = put_all(out, at, &[7, 7]);
        next = put_all(out, next, &mask_bytes(self.members));
        put_all(out, next, &[self.condition, self.citation])
    }
}
