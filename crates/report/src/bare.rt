// Kinds 5 and 6: an answer without worlds.
ghost use Rattle.std.specs.Prelude.{◌*◌, ◌≤◌, length};
ghost use Rattle.sets.specs.paper.Sets.{size as ones};
ghost use Rattle.report.specs.paper.Line.{line_length};
ghost use Rattle.report.specs.code.Bare.{Worldless};

use crate::Answer;
use crate::line::write_bare;
use crate::run::Wanted;
use sets::size;

// A line with nothing but its kind for each person of the roster; to show, there is no world.
#[tactic(auto, using(crate::proofs::FilledLaws::bare))]
pub fn without_worlds(lines: &mut [u8], roster: u64, kind: u8, wanted: Wanted) -> Answer
    requires { line_length * ones roster ≤ length lines.old }
    ensures { Worldless wanted kind roster lines.old lines.new result }
{
    if !wanted.all {
        return Answer::Refused {
            number: 14,
            record: 0,
        };
    }
    write_bare(lines, roster, kind);
    Answer::Answered {
        lines: size(roster) as usize,
        events: 0,
        worlds: 0,
    }
}
