// A clause list with its variables renumbered.
ghost use Rattle.std.specs.Prelude.{◌≡◌, ℕ, ◌+◌, ◌-◌, ◌<◌, ◌≤◌, Bool, true, map, length, take, slice_index};
ghost use Rattle.cnf.specs.Truth.{inside};
ghost use Rattle.cnf.specs.Words.{read, well, encode};
ghost use Rattle.cnf.specs.Table.{by};
ghost use Rattle.classes.specs.Renumber.{mentions, occurs, moved, renamed};
ghost use Rattle.classes.specs.Marks.{Marks, or, Numbered, Renumbered};

use cnf::literal::variable;
use words::clauses::Clauses;

// Marks the variables of a clause. The marks are numbers, unlike a sheet's, since the new numbers take their places.
fn mark(body: &[u16], marks: &mut [u16])
    requires { inside (length marks.old - 1) body.now ≡ true }
    ensures { (f : ℕ → Bool) → Marks f marks.old → Marks (or f (mentions body.now)) marks.new }
{
    for code in body {
        marks[variable(*code)] = 1;
    }
}

// Marks the variables that occur, and no others.
fn mark_all(list: &[u16], marks: &mut [u16])
    requires { well (length marks.old - 1) list.now ≡ true }
    ensures { Marks (occurs (read list.now)) marks.new }
{
    marks.fill(0);
    for clause in Clauses(list) {
        mark(clause, marks);
    }
}

// Numbers what is marked, in rising order, and says how many.
fn number(rank: &mut [u16], old: &mut [u16]) -> usize
    requires same { length rank.old ≡ length old.old }
    requires some { 0 < length old.old }
    requires few { length old.old ≤ 2001 }
    requires constant { slice_index rank.old 0 ≡ 0 }
    ensures { (f : ℕ → Bool) → Marks f rank.old → Numbered f rank.new old.new (length rank.old) result }
{
    old[0] = 0;
    let mut m = 0;
    for (v, mark) in rank.iter_mut().enumerate() {
        if *mark == 1 {
            m += 1;
            *mark = m as u16;
            old[m] = v as u16;
        }
    }
    m
}

// Renumbers the literals of a clause in place.
fn shift(rank: &[u16], clause: &mut [u16])
    requires known { inside (length rank.now - 1) clause.old ≡ true }
    requires small { (v : ℕ) → slice_index rank.now v ≤ 2000 }
    ensures { clause.new ≡ map (moved (by rank.now)) clause.old }
{
    for code in clause.iter_mut() {
        *code = 2 * rank[variable(*code)] + *code % 2;
    }
}

// Writes the list renumbered.
fn write(rank: &[u16], list: &[u16], work: &mut [u16])
    requires room { length list.now ≤ length work.old }
    requires good { well (length rank.now - 1) list.now ≡ true }
    requires small { (v : ℕ) → slice_index rank.now v ≤ 2000 }
    ensures { take (length list.now) work.new ≡ encode (renamed (by rank.now) (read list.now)) }
{
    let mut at = 0;
    for clause in Clauses(list) {
        let end = at + 1 + clause.len();
        work[at] = clause.len() as u16;
        let literals = &mut work[at + 1..end];
        literals.copy_from_slice(clause);
        shift(rank, literals);
        at = end;
    }
}

// Writes the list over the variables that occur in it, numbered from 1 in rising order, and says how many they are.
pub(crate) fn renumber(list: &[u16], work: &mut [u16], rank: &mut [u16], old: &mut [u16]) -> usize
    requires room { length list.now ≤ length work.old }
    requires good { well (length rank.old - 1) list.now ≡ true }
    requires same { length rank.old ≡ length old.old }
    requires some { 0 < length old.old }
    requires few { length old.old ≤ 2001 }
    ensures { Renumbered list.now work.new rank.new old.new (length rank.old - 1) result }
{
    mark_all(list, rank);
    let m = number(rank, old);
    write(rank, list, work);
    m
}
