// Bytes put into a lent buffer, one after another. A byte for which there is no room is left out, and the count stays.
#![tactic(auto)]

pub mod clear;
pub mod little;
pub mod number;

ghost use Rattle.std.specs.Prelude.{◌≡◌};
ghost use Rattle.page.specs.Page.{put_byte, puts};

// Each answers how many bytes stand in `out` then.
pub fn put(out: &mut [u8], at: usize, byte: u8) -> usize
    ensures { record { count = result; out = out.new } ≡ put_byte (record { count = at; out = out.old }) byte }
{
    if at < out.len() {
        out[at] = byte;
        return at + 1;
    }
    at
}

pub fn put_all(out: &mut [u8], at: usize, text: &[u8]) -> usize
    ensures { record { count = result; out = out.new } ≡ puts (record { count = at; out = out.old }) text.now }
{
    let mut next = at;
    for &byte in text {
        next = put(out, next, byte);
    }
    next
}
