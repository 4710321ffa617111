// A plan's bytes made in a lent buffer.
ghost use Rattle.std.specs.Prelude.{◌≡◌, length, replicate};
ghost use Rattle.records.specs.promises.Sound.{Sound};
ghost use Rattle.records.specs.code.Decoded.{plan_of};
ghost use Rattle.encoding.specs.paper.Encoded.{plan_bytes};
ghost use Rattle.encoding.specs.paper.Placed.{kept};
ghost use Rattle.encoding.specs.code.Made.{made_of};

use crate::put_plan;
use page::put_all;
use records::plan::Plan;

// The plan's length, or the refusal.
#[derive(Drop)]
pub enum Made {
    Written(usize),
    Refused { number: u8, record: usize },
}

// No sound plan is encoded in more bytes.
pub const LONGEST: usize = 10564;

// Into a buffer of zeros; `number` is the refusal where the plan does not fit. The bytes are put apart first, for their length.
pub fn place(out: &mut [u8], plan: Plan, number: u8) -> Made
    requires { Sound (plan_of plan) × (out.old ≡ replicate (length out.old) 0) }
    ensures { record { answer = made_of result; bytes = out.new } ≡ kept (length out.old) number (plan_bytes (plan_of plan)) }
{
    let mut bytes = [0u8; LONGEST];
    let n = put_plan(&mut bytes, 0, plan);
    if n > out.len() {
        return Made::Refused {
            number: number,
            record: 0,
        };
    }
    put_all(out, 0, &bytes[..n]);
    Made::Written(n)
}
