// A case out of its bytes, kind after kind, then over its plan.
pub mod booleans;
pub mod constraints;
pub mod families;
pub mod heading;
pub mod relations;

ghost use Rattle.std.specs.Prelude.{◌≡◌};
ghost use Rattle.records.specs.paper.Case.{case_records, read_case};
ghost use Rattle.records.specs.code.Decoded.{plan_of};
ghost use Rattle.records.specs.code.CaseRead.{case_read_of};

use crate::case::Case;
use crate::case::naming::case_naming;
use crate::case::reading::booleans::read_booleans;
use crate::case::reading::constraints::read_constraints;
use crate::case::reading::families::read_families;
use crate::case::reading::heading::read_case_heading;
use crate::case::reading::relations::read_relations;
use crate::checked::Checked;
use crate::fields::passing::ended;
use crate::plan::Plan;

// number 0: the case was read, and the record is free; else the refusal's number and record, and the case is free
#[derive(Drop)]
pub struct CaseRead {
    pub number: u8,
    pub record: usize,
    pub case: Case,
}

// Each reader hands a refusal on, so that what was read after it is empty.
pub fn read_case_records(s: &[u8]) -> CaseRead
    ensures { case_read_of result ≡ case_records s.now }
{
    let h = read_case_heading(s);
    let f = read_families(s, h.next);
    let b = read_booleans(s, f.next);
    let r = read_relations(s, b.next);
    let c = read_constraints(s, r.next);
    let end = ended(s, c.next);
    let heading = h.heading;
    let families = f.families;
    let booleans = b.booleans;
    let relations = r.relations;
    let constraints = c.constraints;
    let case = Case {
        headings: h.headings,
        heading: heading,
        families: families,
        booleans: booleans,
        relations: relations,
        constraints: constraints,
    };
    CaseRead {
        number: end.number,
        record: end.record,
        case: case,
    }
}

// A case over its plan: refusals 1, 2 and 3 as records are read, then 4 over all of them. In a refusal the case is free, in a success the record.
pub fn read_case(plan: Plan, s: &[u8]) -> CaseRead
    ensures { case_read_of result ≡ read_case (plan_of plan) s.now }
{
    let read = read_case_records(s);
    if read.number != 0 {
        return read;
    }
    let case = read.case;
    let named = case_naming(plan, case);
    let Checked::Refused { number, record } = named else {
        return read;
    };
    CaseRead {
        number: number,
        record: record,
        case: case,
    }
}
