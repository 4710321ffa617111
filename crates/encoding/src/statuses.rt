// A status put into a lent buffer.
ghost use Rattle.std.specs.Prelude.{⊤};
ghost use Rattle.records.specs.paper.Plan.{plan_formats};
ghost use Rattle.records.specs.code.Decoded.{status_of};
ghost use Rattle.encoding.specs.paper.Encoded.{record_bytes, status_raw};

use crate::each::Record;
use page::put_all;
use records::plan::Status;

impl Record for Status {
    ghost bytes = { λ t. record_bytes plan_formats (status_raw (status_of t)) };

    ghost fits = { λ _. ⊤ };

    fn put(self, out: &mut [u8], at: usize) -> usize {
        put_all(out, at, &[8, 7, self.person, self.condition, self.citation])
    }
}
