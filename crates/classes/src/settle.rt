// What a sweep asks the solver: the first classes, the searches that tell a variable from its name, and the model that does.
ghost use Rattle.std.specs.Prelude.{◌≡◌, ℕ, ◌+◌, ◌-◌, ◌*◌, ◌/◌, ◌<◌, ◌≤◌, true, length, if◌then◌else◌, vec_len, vec_capacity, slice_index};
ghost use Rattle.cnf.specs.Truth.{told, lit};
ghost use Rattle.cnf.specs.Words.{read, well};
ghost use Rattle.cnf.specs.Table.{Tabled, via};
ghost use Rattle.solver.specs.Search.{accepts};
ghost use Rattle.classes.specs.Classes.{held, Keeps, Asked, Differs, settled};

use cnf::literal::{opposite, variable};
use solver::Solver;

// A search that cannot be refused.
pub(crate) fn ask<S: Solver>(solver: &mut S, m: usize, list: &[u16], assumed: &[u16]) -> bool
    requires { accepts S.CAPACITY m list.now assumed.now ≡ true }
    ensures answer { Asked m list.now assumed.now (S.kept solver.new) result }
    ensures tallied { S.tally solver.new ≤ S.tally solver.old + 1 }
{
    match solver.search(m, list, assumed) {
        Ok(found) => found,
        Err(_) => unreachable!(),
    }
}

// The value of a literal in what is kept; a variable that has no bit is false, and so is the constant.
pub(crate) fn look<S: Solver>(solver: &S, code: u16) -> bool
    ensures { result ≡ lit (held (S.kept solver.now)) code }
{
    let bit = solver.value(variable(code)).unwrap_or(false);
    if code % 2 == 0 { bit } else { !bit }
}

// Looks for a model in which a variable and a lower literal differ. Either of them can be the true one, so both ways are searched.
pub(crate) fn differ<S: Solver>(solver: &mut S, m: usize, list: &[u16], v: usize, old: u16) -> bool
    requires capacity { m ≤ S.CAPACITY }
    requires good { well m list.now ≡ true }
    requires net { 1 ≤ v }
    requires known { v ≤ m }
    requires lower { old / 2 ≤ v }
    ensures answer { Differs m (read list.now) (2 * v) old (S.kept solver.new) result }
    ensures tallied { S.tally solver.new ≤ S.tally solver.old + 2 }
{
    let own = (2 * v) as u16;
    if old < 2 {
        // the literal of v that is true where v differs from the constant
        return ask(solver, m, list, &[own + old]);
    }
    if ask(solver, m, list, &[own, opposite(old)]) {
        return true;
    }
    ask(solver, m, list, &[opposite(own), old])
}

// The first classes of m variables: what is true in the model that is kept, and what is false.
pub(crate) fn start<S: Solver>(solver: &S, m: usize, names: &mut Vec<u16>)
    requires few { m ≤ 2000 }
    requires room { m < vec_capacity names.old }
    ensures size { vec_len names.new ≡ m + 1 }
    ensures cap { vec_capacity names.new ≡ vec_capacity names.old }
    ensures named { (w : ℕ) → w < length names.new.items → slice_index names.new.items w ≡ (if held (S.kept solver.now) w then 1 else 0) }
{
    names.clear();
    // pushed one by one, since the contract of `extend` lets it allocate
    for v in 0..m + 1 {
        names.push_reserved(look(solver, (2 * v) as u16) as u16);
    }
}

// The bits of the model that is kept, with settled variables at the value of their names: a model of the list that they were replaced in.
pub(crate) fn recall<S: Solver>(solver: &S, names: &[u16], v: usize, bits: &mut Vec<bool>)
    requires kept { Keeps (length names.now - 1) (S.kept solver.now) }
    requires some { 1 ≤ length names.now }
    requires few { length names.now ≤ 2001 }
    requires tabled { Tabled names.now }
    requires room { length names.now ≤ vec_capacity bits.old }
    ensures told { told bits.new.items ≡ via (held (S.kept solver.now)) (settled names.now v) }
    ensures size { vec_len bits.new + 1 ≡ length names.now }
    ensures cap { vec_capacity bits.new ≡ vec_capacity bits.old }
{
    bits.clear();
    // By index: the constant's entry is passed over, and the place says whether it is settled.
    for w in 1..names.len() {
        let code = if w < v { names[w] } else { (2 * w) as u16 };
        bits.push_reserved(look(solver, code));
    }
}
