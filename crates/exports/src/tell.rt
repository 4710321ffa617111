// An answer as document 01's numbers.
ghost use Rattle.std.specs.Prelude.{◌≡◌};
ghost use Rattle.report.specs.paper.Operations.{told as told_of};
ghost use Rattle.exports.specs.Handed.{numbers};

use report::Answer;

// Refusal, record, count, maximum, lines, events and worlds; the result is the refusal's number.
pub fn tell(answer: Answer, told: &mut [u64; 7]) -> u8
    ensures { (result ≡ (told_of answer).refusal) × (told.new ≡ numbers (told_of answer)) }
{
    match answer {
        Answer::Accepted => {
            *told = [0; 7];
            0
        }
        Answer::Answered {
            lines,
            events,
            worlds,
        } => {
            *told = [0, 0, 0, 0, lines as u64, events as u64, worlds];
            0
        }
        Answer::Refused { number, record: k } => {
            *told = [number as u64, k as u64, 0, 0, 0, 0, 0];
            number
        }
        Answer::TooManyWorlds { count, most } => {
            *told = [11, 0, count, most, 0, 0, 0];
            11
        }
    }
}
