// A lent buffer made all zero.
ghost use Rattle.std.specs.Prelude.{◌≡◌, length, replicate};

pub fn clear(out: &mut [u8])
    ensures { out.new ≡ replicate (length out.old) 0 }
{
    out.fill(0);
}
