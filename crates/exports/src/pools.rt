// Pools as numbers and bytes that a host reads.
ghost use Rattle.std.specs.Prelude.{◌≡◌, [], ◌∷◌, ◌++◌, map};
ghost use Rattle.sets.specs.paper.Sets.{only};
ghost use Rattle.report.specs.paper.Operations.{told as told_of};
ghost use Rattle.exports.specs.Handed.{numbers};

use crate::tell::tell;
use report::Answer;

// 1 for a unit that is marked, else 0.
pub fn mark_bytes(marks: [bool; 64]) -> [u8; 64]
    ensures { result ≡ map (λ b. only b 1) marks }
{
    let mut bytes = [0u8; 64];
    for i in 0..64 {
        bytes[i] = marks[i] as u8;
    }
    bytes
}

// The seven numbers of the answer, then the count of units and the unplaced sum; the result is the refusal's number.
pub fn tell_pools(answer: Answer, count: usize, unplaced: u64, told: &mut [u64; 9]) -> u8
    ensures { (result ≡ (told_of answer).refusal) × (told.new ≡ numbers (told_of answer) ++ (count ∷ unplaced ∷ [])) }
{
    let mut seven = [0u64; 7];
    let result = tell(answer, &mut seven);
    *told = [
        seven[0],
        seven[1],
        seven[2],
        seven[3],
        seven[4],
        seven[5],
        seven[6],
        count as u64,
        unplaced,
    ];
    result
}
