// The heading put into a lent buffer.
ghost use Rattle.std.specs.Prelude.{◌≡◌};
ghost use Rattle.records.specs.paper.Plan.{plan_formats};
ghost use Rattle.records.specs.code.Decoded.{if_given};
ghost use Rattle.page.specs.Page.{puts};
ghost use Rattle.encoding.specs.paper.Encoded.{record_bytes, heading_raw};

use page::put_all;

pub fn put_heading(out: &mut [u8], at: usize, relation: u8, chained: bool, chain: u8) -> usize
    ensures { record { count = result; out = out.new } ≡ puts (record { count = at; out = out.old }) (record_bytes plan_formats (heading_raw (record { relation = relation; chain = if_given chained chain }))) }
{
    if chained {
        return put_all(out, at, &[1, 3, relation, chain]);
    }
    put_all(out, at, &[1, 1, relation])
}
