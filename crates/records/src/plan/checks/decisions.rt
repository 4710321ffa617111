// The decisions of a cut: whether an edge is decided twice, and how many are unresolved.
ghost use Rattle.std.specs.Prelude.{◌≡◌, ◌≤◌, ◌-◌, ◌+◌, eqb};
ghost use Rattle.sets.specs.paper.Sets.{any_of, numbers};
ghost use Rattle.records.specs.paper.Plan.{decided_once, unresolved_in};
ghost use Rattle.records.specs.code.Decoded.{decisions_of};
ghost use Rattle.records.specs.code.PlanPasses.{decisions_left};

use crate::plan::Decisions;

// whether one of the decisions from number i on is of this edge
fn decided_from(d: Decisions, edge: u8, i: usize) -> bool
    requires { (d.count ≤ 64) × (i ≤ d.count) }
    ensures { result ≡ any_of (λ e. eqb e.edge edge) (decisions_left d i) }
{
    let n = usize::from(d.count);
    for j in i..n {
        if d.edges[j] == edge {
            return true;
        }
    }
    false
}

pub fn decided_once(d: Decisions) -> bool
    requires { d.count ≤ 64 }
    ensures { result ≡ decided_once (decisions_of d) }
{
    let n = usize::from(d.count);
    for i in 0..n {
        if decided_from(d, d.edges[i], i + 1) {
            return false;
        }
    }
    true
}

pub fn unresolved_in(d: Decisions) -> usize
    requires { d.count ≤ 64 }
    ensures { (result ≡ unresolved_in (decisions_of d)) × (result ≤ 64) }
{
    let n = usize::from(d.count);
    let mut total: usize = 0;
    for i in 0..n {
        if d.verdicts[i] == 3 {
            total = total + 1;
        }
    }
    total
}
