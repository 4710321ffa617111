// A fact put into a lent buffer.
ghost use Rattle.std.specs.Prelude.{⊤};
ghost use Rattle.records.specs.paper.Plan.{plan_formats};
ghost use Rattle.records.specs.code.Decoded.{fact_of};
ghost use Rattle.encoding.specs.paper.Encoded.{record_bytes, fact_raw};

use crate::each::Record;
use page::put_all;
use records::plan::Fact;

// "Both bits or, for a boolean fact, neither."
impl Record for Fact {
    ghost bytes = { λ f. record_bytes plan_formats (fact_raw (fact_of f)) };

    ghost fits = { λ _. ⊤ };

    fn put(self, out: &mut [u8], at: usize) -> usize {
        if self.boolean {
            return put_all(out, at, &[2, 0]);
        }
        let n = usize::from(self.count).min(4);
        let next = put_all(out, at, &[2, 3, self.family, n as u8]);
        put_all(out, next, &self.tuple[..n])
    }
}
