// Clauses at the end of a store, and the nets that wait.
ghost use Rattle.std.specs.Prelude.{◌≡◌, ℕ, ◌+◌, ◌-◌, ◌≤◌, true, false, ◌||◌, ◌∷◌, ◌++◌, length, vec_len, vec_capacity, slice_index_or};
ghost use Rattle.cnf.specs.Truth.{inside};
ghost use Rattle.cnf.specs.Words.{read, well};
ghost use Rattle.classes.specs.Renumber.{mentions, occurs};

use cnf::literal::variable;
use words::clauses::Clauses;

// Writes a clause at the end, in the space that is set aside. No `extend_from_slice`, whose contract
// lets it allocate.
pub(crate) fn append(words: &mut Vec<u16>, body: &[u16])
    requires room { vec_len words.old + 1 + length body.now ≤ vec_capacity words.old }
    requires few { length body.now ≤ 64 }
    ensures words { words.new.items ≡ words.old.items ++ length body.now ∷ body.now }
    ensures space { vec_capacity words.new ≡ vec_capacity words.old }
{
    words.push_reserved(body.len() as u16);
    for code in body {
        words.push_reserved(*code);
    }
}

// Marks the variables of a clause.
pub(crate) fn join(body: &[u16], marks: &mut [bool])
    requires { inside (length marks.old - 1) body.now ≡ true }
    ensures { (v : ℕ) → slice_index_or marks.new v false ≡
        (slice_index_or marks.old v false || mentions body.now v) }
{
    for code in body {
        marks[variable(*code)] = true;
    }
}

// Marks the variables of a list.
pub(crate) fn join_all(list: &[u16], marks: &mut [bool])
    requires { well (length marks.old - 1) list.now ≡ true }
    ensures { (v : ℕ) → slice_index_or marks.new v false ≡
        (slice_index_or marks.old v false || occurs (read list.now) v) }
{
    for clause in Clauses(list) {
        join(clause, marks);
    }
}
