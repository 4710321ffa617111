// A cut put into a lent buffer.
ghost use Rattle.std.specs.Prelude.{◌≡◌, ◌≤◌};
ghost use Rattle.records.specs.paper.Plan.{plan_formats};
ghost use Rattle.records.specs.code.Decoded.{decisions_of, cut_of};
ghost use Rattle.page.specs.Page.{puts};
ghost use Rattle.encoding.specs.paper.Encoded.{record_bytes, cut_raw};
ghost use Rattle.encoding.specs.code.Written.{pair_bytes, Few};

use crate::bits::weigh;
use crate::each::Record;
use crate::elections::put_election;
use crate::lists::{any, put_list};
use page::little::mask_bytes;
use page::{put, put_all};
use records::plan::{Cut, Decisions};

// Each edge with its decision.
pub fn put_decisions(out: &mut [u8], at: usize, d: Decisions) -> usize
    requires { d.count ≤ 64 }
    ensures { record { count = result; out = out.new } ≡ puts (record { count = at; out = out.old }) (pair_bytes (decisions_of d)) }
{
    if d.count == 0 {
        return at;
    }
    let mut next = put(out, at, d.count);
    for i in 0..usize::from(d.count) {
        next = put_all(out, next, &[d.edges[i], d.verdicts[i]]);
    }
    next
}

impl Record for Cut {
    ghost bytes = { λ c. record_bytes plan_formats (cut_raw (cut_of c)) };

    ghost fits = { Few };

    fn put(self, out: &mut [u8], at: usize) -> usize {
        let bits = 7
            + weigh(self.election.given, 8)
            + weigh(self.decisions.count > 0, 16)
            + weigh(any(self.precedes), 32);
        let mut next = put_all(out, at, &[5, bits]);
        next = put_all(out, next, &mask_bytes(self.members));
        next = put_all(out, next, &[self.condition, self.citation]);
        next = put_election(out, next, self.election);
        next = put_decisions(out, next, self.decisions);
        put_list(out, next, self.precedes)
    }
}
