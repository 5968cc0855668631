// The form of a clause list.
ghost use Rattle.std.specs.Prelude.{◌≡◌};
ghost use Rattle.cnf.specs.Truth.{inside};
ghost use Rattle.cnf.specs.Words.{well};

use cnf::limits::MAX_LITERALS;
use cnf::literal::variable;

// Whether every code is of one of m variables.
pub fn all_named(m: usize, codes: &[u16]) -> bool
    ensures { result ≡ inside m codes.now }
{
    codes.iter().all(|code| (1..=m).contains(&variable(*code)))
}

// Whether a list is well formed for m variables.
pub fn well_formed(m: usize, list: &[u16]) -> bool
    ensures { result ≡ well m list.now }
{
    let mut rest = list;
    while let Some((count, body)) = rest.split_first() {
        let count = *count as usize;
        if count > MAX_LITERALS || count > body.len() {
            return false;
        }
        let (clause, behind) = body.split_at(count);
        if !all_named(m, clause) {
            return false;
        }
        rest = behind;
    }
    true
}
