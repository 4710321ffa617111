// The amounts of a line, and pools as a line has them: 17 bytes a unit, block and cents lowest byte first, then the mark.
ghost use Rattle.std.specs.Prelude.{◌≡◌, ◌+◌, ◌≤◌, ◌<◌, length};

use billing::pools::Pools;

// A byte, or 0 past the end.
fn byte_at(bytes: &[u8], at: usize) -> u8 {
    if at >= bytes.len() {
        return 0;
    }
    bytes[at]
}

fn to_u32(x: u8) -> u32
    ensures { result < 256 }
{
    x as u32
}

// Four bytes, the lowest first.
fn word_at(bytes: &[u8], at: usize) -> u32
    requires { at ≤ 1020 }
{
    let a = to_u32(byte_at(bytes, at));
    let b = to_u32(byte_at(bytes, at + 1));
    let c = to_u32(byte_at(bytes, at + 2));
    let d = to_u32(byte_at(bytes, at + 3));
    a + 256 * (b + 256 * (c + 256 * d))
}

// As many amounts as a line may bring: more than a roster has, so that a list that is too long can be tried.
pub fn amounts_of(bytes: &[u8]) -> [u32; 256]
    ensures { length result ≡ 256 }
{
    let mut amounts = [0u32; 256];
    for i in 0..256 {
        amounts[i] = word_at(bytes, 4 * i);
    }
    amounts
}

// Eight bytes from a place on, the lowest first.
fn put_number(out: &mut [u8], at: usize, number: u64)
    requires { at + 8 ≤ length out.old }
{
    let mut left = number;
    for i in 0..8 {
        out[at + i] = (left % 256) as u8;
        left = left / 256;
    }
}

fn put_mark(out: &mut [u8], at: usize, mark: bool)
    requires { at < length out.old }
{
    out[at] = mark as u8;
}

fn put_unit(out: &mut [u8], at: usize, block: u64, cents: u64, mark: bool)
    requires { at + 17 ≤ length out.old }
{
    put_number(out, at, block);
    put_number(out, at + 8, cents);
    put_mark(out, at + 16, mark);
}

// All 64 places.
pub fn page_of(pools: Pools) -> [u8; 1088] {
    let blocks = pools.blocks;
    let cents = pools.cents;
    let marks = pools.marks;
    let mut page = [0u8; 1088];
    for i in 0..64 {
        put_unit(&mut page, 17 * i, blocks[i], cents[i], marks[i]);
    }
    page
}
