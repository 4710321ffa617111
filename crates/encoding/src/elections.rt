// An election as a field.
ghost use Rattle.std.specs.Prelude.{◌≡◌};
ghost use Rattle.records.specs.code.Decoded.{election_of};
ghost use Rattle.page.specs.Page.{puts};
ghost use Rattle.encoding.specs.paper.Encoded.{election_bytes};

use page::put_all;
use records::plan::Election;

pub fn put_election(out: &mut [u8], at: usize, e: Election) -> usize
    ensures { record { count = result; out = out.new } ≡ puts (record { count = at; out = out.old }) (election_bytes (election_of e)) }
{
    if e.given {
        return put_all(out, at, &[e.fact, e.actor, e.policy, e.citation]);
    }
    at
}
