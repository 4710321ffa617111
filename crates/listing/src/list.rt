// The lister's work, on slices.
ghost use Rattle.std.specs.Prelude.{◌≡◌, ◌*◌, ◌≤◌, length};
ghost use Rattle.page.specs.Page.{puts};
ghost use Rattle.report.specs.paper.Line.{line_length};
ghost use Rattle.report.specs.paper.LineAt.{lines_from};
ghost use Rattle.billing.specs.paper.Households.{household_count};
ghost use Rattle.listing.specs.Text.{table, last_row};
ghost use Rattle.listing.specs.Listing.{longest};
ghost use Rattle.listing.specs.Shown.{Listed};

use crate::rows::{put_refused, put_rows};
use billing::households::household_count;
use page::number::put_number;
use page::{put, put_all};
use report::Answer;
use report::operations::answer;

// The word "units" and how many of them are households.
fn put_last(out: &mut [u8], at: usize, lines: &[u8], n: usize) -> usize
    requires { (n ≤ 64) × (line_length * n ≤ length lines.now) }
    ensures { record { count = result; out = out.new } ≡ puts (record { count = at; out = out.old }) (last_row (household_count (lines_from lines.now 0 n))) }
{
    let mut next = put_all(out, at, b"units ");
    next = put_number(out, next, household_count(lines, n));
    put(out, next, b'\n')
}

fn put_table(out: &mut [u8], lines: &[u8], n: usize) -> usize
    requires { (n ≤ 64) × (line_length * n ≤ length lines.now) }
    ensures out_after { record { count = result; out = out.new } ≡ puts (record { count = 0; out = out.old }) (table (lines_from lines.now 0 n)) }
    ensures n_len_bound { length (table (lines_from lines.now 0 n)) ≤ longest }
{
    let mut next = put_all(out, 0, b"person kind role block\n");
    next = put_rows(out, next, lines, n);
    put_last(out, next, lines, n)
}

// The text of the plan and the case at the start of `out`, and its length; the lines and events of the answer stand in their buffers.
pub fn list(plan: &[u8], case: &[u8], lines: &mut [u8], events: &mut [u8], out: &mut [u8]) -> usize
    ensures { Listed plan.now case.now lines.old events.old out.old lines.new events.new out.new result }
{
    match answer(plan, case, lines, events) {
        Answer::Accepted => put_table(out, lines, 0),
        Answer::Answered { lines: n, .. } => put_table(out, lines, n),
        Answer::Refused { number, record: k } => put_refused(out, 0, number, k),
        Answer::TooManyWorlds { .. } => put_refused(out, 0, 11, 0),
    }
}
