// The lister's text of a line, beside the one that is expected.
use crate::lent::{DIRT, holds, soil};
use crate::vector::{Outcome, same};
use listing::list::list;

// Whether the lister's text, with these buffers for lines and events, has the length and the bytes of the line, and leaves what is past it; nothing stands
// behind the text in the line. The text's buffer is as long as the longest text.
pub fn lists(
    expected: Outcome,
    plan: &[u8],
    case: &[u8],
    text: &[u8],
    rest: &[u8],
    lines: &mut [u8],
    events: &mut [u8],
) -> bool {
    soil(lines);
    soil(events);
    let mut out = [DIRT; 13216];
    let length = list(plan, case, lines, events, &mut out);
    rest.len() == 0
        && same(Outcome::answered(length as u64, 0, 0), expected)
        && holds(&out, text, DIRT)
}
