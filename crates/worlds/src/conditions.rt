// The conditions of rules and the defeaters of edges laid into tables, once a case.
ghost use Rattle.std.specs.Prelude.{◌≡◌, ◌<◌, ◌≤◌, ℕ, get_or, length};
ghost use Rattle.std.specs.Fn.{FnReturnsAt};
ghost use Rattle.records.specs.code.Decoded.{plan_of};
ghost use Rattle.worlds.specs.code.Conditions.{Conditioned};

use crate::active::{ATTACHMENT, BAR, CUT, Conditions, DEFEATERS, EDGE, STATUS};
use records::plan::Plan;

// Of each of these rules one entry.
fn lay_each<R, T: Copy, F: Fn(&R) -> T>(table: &mut [T; 64], rules: &[R], entry: F)
    requires room { length rules.now ≤ 64 }
    requires callable { F.IsAlwaysCallable entry }
    ensures { (none : R) (past : T) (i : ℕ) → i < length rules.now → FnReturnsAt F.Fn entry (get_or rules.now i none) (get_or table.new i past) }
{
    for i in 0..rules.len() {
        table[i] = entry(&rules[i]);
    }
}

// The conditions of all rules, and the defeaters of all edges.
pub fn lay_conditions(conditions: &mut Conditions, defeaters: &mut [[u8; 16]; 64], plan: Plan)
    ensures { Conditioned (plan_of plan) conditions.new defeaters.new }
{
    let edges = &plan.edges.items[..plan.edges.count.min(64)];
    lay_each(&mut conditions[EDGE], edges, |e| e.condition);
    lay_each(&mut conditions[DEFEATERS], edges, |e| e.defeaters.count);
    // The clause stands here because of an array that a closure returns nothing is known without one.
    lay_each(
        defeaters,
        edges,
        |e|
            ensures { result ≡ e.now.defeaters.items }
        { e.defeaters.items },
    );
    let cuts = &plan.cuts.items[..plan.cuts.count.min(16)];
    lay_each(&mut conditions[CUT], cuts, |c| c.condition);
    let attachments = &plan.attachments.items[..plan.attachments.count.min(32)];
    lay_each(&mut conditions[ATTACHMENT], attachments, |a| a.condition);
    let bars = &plan.bars.items[..plan.bars.count.min(32)];
    lay_each(&mut conditions[BAR], bars, |b| b.condition);
    let statuses = &plan.statuses.items[..plan.statuses.count.min(32)];
    lay_each(&mut conditions[STATUS], statuses, |s| s.condition);
}
