// A mask as eight bytes.
ghost use Rattle.std.specs.Prelude.{◌≡◌};
ghost use Rattle.page.specs.Little.{little_bytes};

// The bytes of a mask, the lowest first.
pub fn mask_bytes(m: u64) -> [u8; 8]
    ensures { result ≡ little_bytes 8 m }
{
    m.to_le_bytes()
}
