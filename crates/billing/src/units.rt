// The units of lines: the different blocks.
ghost use Rattle.std.specs.Prelude.{◌≡◌, ℕ, [], ◌+◌, ◌*◌, ◌≤◌, ◌<◌, length, take, map};
ghost use Rattle.report.specs.paper.Line.{Line, line_length};
ghost use Rattle.report.specs.paper.LineAt.{lines_from};
ghost use Rattle.report.specs.paper.Units.{join_unit, units};
ghost use Rattle.billing.specs.declared.fields.Fields.{Fields};
ghost use Rattle.billing.specs.Shown.{Shows, IsUnits, with_block};

use crate::fields::{Fields, fields_at};

// The first `count` of `blocks`.
#[derive(Clone, Copy)]
pub struct Units {
    pub blocks: [u64; 64],
    pub count: usize,
}

impl Units {
    pub fn none() -> Units
        ensures units { IsUnits [] result }
        ensures count_value { result.count ≡ 0 }
    {
        Units {
            blocks: [0; 64],
            count: 0,
        }
    }

    // With this block, if it is one and is not there yet.
    pub fn join(mut self, block: u64) -> Units
        requires { self.count < 64 }
        ensures units { IsUnits (join_unit (take self.count self.blocks) block) result }
        ensures count_bound { result.count ≤ self.count + 1 }
    {
        if block == 0 || self.blocks[..self.count].contains(&block) {
            return self;
        }
        self.blocks[self.count] = block;
        self.count += 1;
        self
    }
}

// Of the first n lines, each with the block that it is given.
pub fn units_by<F: Fn(Fields) -> u64>(lines: &[u8], n: usize, block_of: F) -> Units
    ghost block: { Line → ℕ }
    requires n_fits { (n ≤ 64) × (line_length * n ≤ length lines.now) }
    requires callable { F.IsAlwaysCallable block_of }
    requires given { (l : Line) (x : Fields) (b : ℕ) → Shows l x → F.post block_of x b → b ≡ block l }
    ensures { IsUnits (units (map (with_block block) (lines_from lines.now 0 n))) result }
{
    let mut found = Units::none();
    for k in 0..n {
        found = found.join(block_of(fields_at(lines, k)));
    }
    found
}

// Of the first n lines.
pub fn units_of(lines: &[u8], n: usize) -> Units
    requires { (n ≤ 64) × (line_length * n ≤ length lines.now) }
    ensures { IsUnits (units (lines_from lines.now 0 n)) result }
{
    units_by(lines, n, |line| line.block)
}
