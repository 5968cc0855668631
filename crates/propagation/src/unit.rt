// Clauses of at most one literal.
ghost use Rattle.std.specs.Prelude.{◌≡◌};
ghost use Rattle.cnf.specs.Words.{read};
ghost use Rattle.propagation.specs.Propagate.{pending};

use words::clauses::Clauses;

// What the first clause of at most one literal asks for: nothing if there is none, a conflict if it is empty, and otherwise that its literal is true.
#[derive(Clone, Copy, PartialEq, Eq, Debug)]
pub enum Pending {
    Nothing,
    Conflict,
    Forces(u16),
}

// The first clause of a list that has at most one literal. One whose count goes beyond the list has the literals that are there.
pub fn next_pending(list: &[u16]) -> Pending
    ensures { result ≡ pending (read list.now) }
{
    for clause in Clauses(list) {
        match clause {
            [] => return Pending::Conflict,
            [only] => return Pending::Forces(*only),
            [_, _, ..] => {}
        }
    }
    Pending::Nothing
}
