// Record after record of a kind, put into a lent buffer.
ghost use Rattle.std.specs.Prelude.{◌≡◌, List, ℕ};
ghost use mathlib.Core.List.{flat_map};
ghost use Rattle.sets.specs.paper.Sets.{All};
ghost use Rattle.page.specs.Page.{puts};

// A record of a plan. `fits`: what is asked of its arrays.
pub trait Record: Copy {
    ghost bytes: { Self → List ℕ };

    ghost fits: { Self → Type 0 };

    fn put(self, out: &mut [u8], at: usize) -> usize
        requires { fits self }
        ensures { record { count = result; out = out.new } ≡ puts (record { count = at; out = out.old }) (bytes self) };
}

pub fn put_each<T: Record>(out: &mut [u8], at: usize, records: &[T]) -> usize
    requires { All T.fits records.now }
    ensures { record { count = result; out = out.new } ≡ puts (record { count = at; out = out.old }) (flat_map T.bytes records.now) }
{
    let mut next = at;
    for x in records {
        next = x.put(out, next);
    }
    next
}
