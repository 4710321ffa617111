// The refusals that come with binding: 5, 10 and 11.
ghost use Rattle.records.specs.code.Decoded.{case_of};
ghost use Rattle.probes.specs.Entries.{refusal_by};
ghost use Rattle.probes.specs.Binds.{TellsVerdict};

use expressions::bindable::bindable;
use records::case::Case;
use records::checked::Checked;

// Number 0 and place 0 where nothing is refused.
#[derive(Drop)]
pub struct Refusal {
    pub number: u8,
    pub place: usize,
}

// `over`: there are more worlds than the heading allows.
pub fn refusal_of(case: Case, over: bool) -> Refusal
    ensures { TellsVerdict (refusal_by (case_of case) over) result }
{
    match bindable(case) {
        Checked::Accepted => Refusal {
            number: if over { 11 } else { 0 },
            place: 0,
        },
        Checked::Refused { number, record } => Refusal {
            number,
            place: record,
        },
    }
}
