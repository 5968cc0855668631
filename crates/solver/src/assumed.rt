// The truth of assumed literals.
ghost use Rattle.std.specs.Prelude.{◌≡◌};
ghost use Rattle.cnf.specs.Truth.{told};
ghost use Rattle.solver.specs.Search.{every};

use cnf::literal::is_true;

// Whether every literal is true under the bits.
pub fn every_true(codes: &[u16], bits: &[bool]) -> bool
    ensures { result ≡ every (told bits.now) codes.now }
{
    codes.iter().all(|code| is_true(*code, bits))
}
