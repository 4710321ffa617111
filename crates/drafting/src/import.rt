// A plan imported from a table.
ghost use Rattle.std.specs.Prelude.{◌≡◌, length};
ghost use Rattle.drafting.specs.paper.Importing.{imported};
ghost use Rattle.encoding.specs.code.Made.{made_of};

use encoding::made::{Made, place};
use page::clear::clear;
use spreadsheet::draft::plan_in;

// IMPORT A TABLE: the whole table is gone through before the plan's length is asked for.
pub fn import(table: &[u8], plan: &mut [u8]) -> Made
    ensures { record { answer = made_of result; bytes = plan.new } ≡ imported table.now (length plan.old) }
{
    clear(plan);
    let read = plan_in(table);
    if read.number != 0 {
        return Made::Refused {
            number: read.number,
            record: read.record,
        };
    }
    place(plan, read.plan, 17)
}
