// A bit of the bit map, by its weight.
ghost use Rattle.std.specs.Prelude.{◌≡◌, cond, ◌≤◌};

pub fn weigh(stands: bool, weight: u8) -> u8
    ensures { (result ≡ cond stands weight 0) × (result ≤ weight) }
{
    if stands { weight } else { 0 }
}
