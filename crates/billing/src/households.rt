// Units that are households: blocks that draw service.
ghost use Rattle.std.specs.Prelude.{◌≡◌, ◌*◌, ◌≤◌, length};
ghost use Rattle.sets.specs.paper.Sets.{only};
ghost use Rattle.report.specs.paper.Line.{line_length};
ghost use Rattle.report.specs.paper.LineAt.{lines_from};
ghost use Rattle.billing.specs.paper.Households.{makes_household, household_count};

use crate::fields::Fields;
use crate::units::units_by;

// Whether a line's person makes the block a household: of kind 0 and not excluded, or of kind 2.
fn makes_household(line: Fields) -> bool
    ensures { result ≡ makes_household line.kind line.role }
{
    line.kind == 2 || line.kind == 0 && line.role != 2
}

// The block of a line whose person makes it a household; of any other line 0, which is no block.
fn household_of(line: Fields) -> u64
    ensures { result ≡ only (makes_household line.kind line.role) line.block }
{
    if makes_household(line) { line.block } else { 0 }
}

// How many units of the first n lines are households.
pub fn household_count(lines: &[u8], n: usize) -> usize
    requires { (n ≤ 64) × (line_length * n ≤ length lines.now) }
    ensures { result ≡ household_count (lines_from lines.now 0 n) }
{
    units_by(lines, n, household_of).count
}
