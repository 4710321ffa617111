// What became of plan bytes as numbers that a host reads.
ghost use Rattle.std.specs.Prelude.{◌≡◌};
ghost use Rattle.encoding.specs.code.Made.{made_of};
ghost use Rattle.exports.specs.Handed.{made_numbers, made_refusal};

use encoding::made::Made;

// The refusal, its record, the plan's length; the result is the refusal's number.
pub fn tell_made(found: Made, made: &mut [u64; 3]) -> u8
    ensures { (result ≡ made_refusal (made_of found)) × (made.new ≡ made_numbers (made_of found)) }
{
    match found {
        Made::Written(length) => {
            *made = [0, 0, length as u64];
            0
        }
        Made::Refused { number, record: k } => {
            *made = [number as u64, k as u64, 0];
            number
        }
    }
}
