// An attachment put into a lent buffer.
ghost use Rattle.std.specs.Prelude.{⊤};
ghost use Rattle.records.specs.paper.Plan.{plan_formats};
ghost use Rattle.records.specs.code.Decoded.{attachment_of};
ghost use Rattle.encoding.specs.paper.Encoded.{record_bytes, attachment_raw};

use crate::bits::weigh;
use crate::each::Record;
use crate::elections::put_election;
use page::little::mask_bytes;
use page::put_all;
use records::plan::Attachment;

impl Record for Attachment {
    ghost bytes = { λ a. record_bytes plan_formats (attachment_raw (attachment_of a)) };

    ghost fits = { λ _. ⊤ };

    fn put(self, out: &mut [u8], at: usize) -> usize {
        let bits = 31 + weigh(self.election.given, 32);
        let mut next = put_all(out, at, &[6, bits]);
        next = put_all(out, next, &mask_bytes(self.members));
        next = put_all(
            out,
            next,
            &[self.anchor, self.condition, self.citation, self.actor],
        );
        put_election(out, next, self.election)
    }
}
