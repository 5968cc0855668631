// The truth of clauses under bits, which are the values of the variables from 1 on.
ghost use Rattle.std.specs.Prelude.{◌≡◌};
ghost use Rattle.cnf.specs.Truth.{told, clause, clauses};
ghost use Rattle.cnf.specs.Words.{read};

use crate::clauses::Clauses;
use cnf::literal::is_true;

// Whether some literal of the clause is true.
pub fn clause_true(body: &[u16], bits: &[bool]) -> bool
    ensures { result ≡ clause (told bits.now) body.now }
{
    body.iter().any(|code| is_true(*code, bits))
}

// Whether every clause of the list is true.
pub fn satisfied(list: &[u16], bits: &[bool]) -> bool
    ensures { result ≡ clauses (told bits.now) (read list.now) }
{
    Clauses(list).all(|clause| clause_true(clause, bits))
}
