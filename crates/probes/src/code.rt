// A binding's code, made one number: the crate below reads every code from 6 on as a conflict of both.
ghost use Rattle.std.specs.Prelude.{◌≡◌};
ghost use Rattle.expressions.specs.code.Codes.{bound_of};
ghost use Rattle.probes.specs.Entries.{code_of};

pub fn told_code(code: u8) -> u8
    ensures { result ≡ code_of (bound_of code) }
{
    code.min(6)
}
