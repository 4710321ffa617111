// The answer of a check: nothing is wrong, or the refusal's number and record.
#[derive(Drop)]
pub enum Checked {
    Accepted,
    Refused { number: u8, record: usize },
}
