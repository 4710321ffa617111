// Bytes as wider numbers, and the smaller of two numbers: for callers elsewhere, as here std's `From` and `min` serve.
ghost use Rattle.std.specs.Prelude.{◌≡◌, ◌<◌, ◌≤◌, min};

// A byte as an index.
pub fn wide(x: u8) -> usize
    ensures { (result ≡ x) × (result < 256) }
{
    x as usize
}

pub fn to_u64(x: u8) -> u64
    ensures { (result ≡ x) × (result < 256) }
{
    x as u64
}

// The smaller of two: a count of entries in use is at most the array's length.
pub fn upto(count: usize, most: usize) -> usize
    ensures { (result ≡ min count most) × (result ≤ most) }
{
    if count < most { count } else { most }
}
