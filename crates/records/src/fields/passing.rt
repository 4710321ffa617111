// What the readers of the kinds hand on, one to the next.
ghost use Rattle.std.specs.Prelude.{◌≡◌};
ghost use Rattle.records.specs.code.Passes.{at_start, end_number};

// number 0: nothing is refused so far, `record` records were read, and `at` is the place after them; else the refusal's number and record, and the
// place is free. `headed`: there is a heading.
#[derive(Clone, Copy)]
pub struct Passing {
    pub number: u8,
    pub record: usize,
    pub at: usize,
    pub headed: bool,
}

pub fn at_start() -> Passing
    ensures { result ≡ at_start }
{
    Passing {
        number: 0,
        record: 0,
        at: 0,
        headed: false,
    }
}

// Refused with this number, at the record that is being read.
pub fn refused(here: Passing, number: u8) -> Passing
    ensures { result ≡ record { number = number; «record» = here.record; at = here.at; headed = here.headed } }
{
    Passing {
        number: number,
        record: here.record,
        at: here.at,
        headed: here.headed,
    }
}

// After the last kind nothing may come, and there must have been a record.
pub fn ended(s: &[u8], last: Passing) -> Passing
    ensures { (result.number ≡ end_number s.now last) × (result.record ≡ last.record) }
{
    if last.number != 0 {
        return last;
    }
    if last.at < s.len() {
        return refused(last, 1);
    }
    if last.record == 0 {
        return refused(last, 3);
    }
    last
}
