// Income pooled by unit, over an answer's lines.
ghost use Rattle.std.specs.Prelude.{◌≡◌, Bool, [], ◌*◌, ◌≤◌, length};
ghost use Rattle.sets.specs.paper.Sets.{only, sum_of};
ghost use Rattle.report.specs.paper.Line.{Line, line_length};
ghost use Rattle.report.specs.paper.LineAt.{lines_from};
ghost use Rattle.billing.specs.declared.fields.Fields.{Fields};
ghost use Rattle.billing.specs.paper.Pools.{shares, pooled_as, pool_of, mark_of, unplaced as unplaced_of, pools as pools_of};
ghost use Rattle.billing.specs.Shown.{Shows, laid};

use crate::fields::{Fields, fields_at};
use crate::units::units_of;

// The first `count` of `blocks`, each with its pool and whether it is open; zero past them. Beside them the sum of whoever is not pooled.
#[derive(Drop)]
pub struct Pools {
    pub count: usize,
    pub blocks: [u64; 64],
    pub cents: [u64; 64],
    pub marks: [bool; 64],
    pub unplaced: u64,
}

// Whether a line's person is pooled: of kind 0, and not excluded.
fn is_pooled(line: Fields) -> bool
    ensures { result ≡ pooled_as line.kind line.role }
{
    line.kind == 0 && line.role != 2
}

// The sum over the lines that pass a test.
fn sum_where<F: Fn(Fields) -> bool>(lines: &[u8], n: usize, amounts: &[u32], test: F) -> u64
    ghost passes: { Line → Bool }
    requires n_fits { (n ≤ 64) × (line_length * n ≤ length lines.now) × (n ≤ length amounts.now) }
    requires callable { F.IsAlwaysCallable test }
    requires tested { (l : Line) (x : Fields) (b : Bool) → Shows l x → F.post test x b → b ≡ passes l }
    ensures { result ≡ sum_of (λ x. only (passes x.line) x.cents) (shares (lines_from lines.now 0 n) amounts.now) }
{
    let mut sum = 0;
    for k in 0..n {
        if test(fields_at(lines, k)) {
            sum += u64::from(amounts[k]);
        }
    }
    sum
}

// The pool of a block.
fn pool_of(lines: &[u8], n: usize, amounts: &[u32], block: u64) -> u64
    requires { (n ≤ 64) × (line_length * n ≤ length lines.now) × (n ≤ length amounts.now) }
    ensures { result ≡ pool_of (shares (lines_from lines.now 0 n) amounts.now) block }
{
    sum_where(lines, n, amounts, move |line| {
        is_pooled(line) && line.block == block
    })
}

// Whether somebody of kind 2 has the block.
fn mark_of(lines: &[u8], n: usize, block: u64) -> bool
    requires { line_length * n ≤ length lines.now }
    ensures { result ≡ mark_of (lines_from lines.now 0 n) block }
{
    (0..n).any(|k| {
        let line = fields_at(lines, k);
        line.kind == 2 && line.block == block
    })
}

// The amounts of whoever is not pooled.
fn unplaced_of(lines: &[u8], n: usize, amounts: &[u32]) -> u64
    requires { (n ≤ 64) × (line_length * n ≤ length lines.now) × (n ≤ length amounts.now) }
    ensures { result ≡ unplaced_of (shares (lines_from lines.now 0 n) amounts.now) }
{
    sum_where(lines, n, amounts, |line| !is_pooled(line))
}

// Nothing pooled, nothing unplaced.
pub fn no_pools() -> Pools
    ensures { result ≡ laid [] 0 }
{
    Pools {
        count: 0,
        blocks: [0; 64],
        cents: [0; 64],
        marks: [false; 64],
        unplaced: 0,
    }
}

// Over the first n lines, and as many amounts.
pub fn pools_of(lines: &[u8], n: usize, amounts: &[u32]) -> Pools
    requires { (n ≤ 64) × (line_length * n ≤ length lines.now) × (n ≤ length amounts.now) }
    ensures { result ≡ laid (pools_of (lines_from lines.now 0 n) amounts.now) (unplaced_of (shares (lines_from lines.now 0 n) amounts.now)) }
{
    let units = units_of(lines, n);
    let mut blocks = [0; 64];
    let mut cents = [0; 64];
    let mut marks = [false; 64];
    for i in 0..units.count {
        let block = units.blocks[i];
        blocks[i] = block;
        cents[i] = pool_of(lines, n, amounts, block);
        marks[i] = mark_of(lines, n, block);
    }
    Pools {
        count: units.count,
        blocks,
        cents,
        marks,
        unplaced: unplaced_of(lines, n, amounts),
    }
}
