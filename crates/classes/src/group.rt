// The sweep of a group of clauses over any of the nets.
ghost use Rattle.std.specs.Prelude.{◌≡◌, ℕ, ◌-◌, ◌/◌, ◌<◌, ◌≤◌, length, vec_len, slice_index};
ghost use Rattle.classes.specs.Group.{Carried, Rises, Grouped};

use crate::renumber::renumber;
use crate::scratch::Scratch;
use cnf::literal::variable;
use faults::SheetFault;
use solver::Solver;
use words::check::well_formed;

// Writes the names of the numbered variables, under their own numbers, to the table.
fn carry(old: &[u16], names: &[u16], table: &mut [u16])
    requires some { 0 < length names.now }
    requires within { length names.now ≤ length old.now }
    requires few { length table.old ≤ 2001 }
    requires rises { Rises old.now (length table.old - 1) (length names.now - 1) }
    requires nets { 0 < length table.old }
    requires low { (k : ℕ) → k < length names.now → slice_index names.now k / 2 ≤ k }
    ensures { Carried old.now names.now table.old table.new (length names.now - 1) }
{
    // By index: two tables are read at one place, and the constant's is passed over.
    for w in 1..names.len() {
        let name = names[w];
        let entry = 2 * old[variable(name)] + name % 2;
        table[old[w] as usize] = entry;
    }
}

// Sweeps the list: each variable that occurs in it gets its lowest equal literal in the table; `false` if the list has no model. What `work` holds after is left open.
pub fn sweep_group<S: Solver>(
    scratch: &mut Scratch,
    solver: &mut S,
    list: &[u16],
    work: &mut [u16],
    table: &mut [u16],
) -> Result<bool, SheetFault>
    ensures answer { Grouped S.tally S.CAPACITY (vec_len scratch.entry.now.rank) list.now (length work.old) table.old table.new solver.old solver.new result }
    ensures size { vec_len scratch.exit.now.rank ≡ vec_len scratch.entry.now.rank }
{
    let size = scratch.rank.len();
    if table.len() != size || !well_formed(size - 1, list) {
        return Err(SheetFault::NoSuchVariable);
    }
    if work.len() < list.len() {
        return Err(SheetFault::SpaceShort);
    }
    let m = renumber(list, work, &mut scratch.rank, &mut scratch.old);
    if m > S::CAPACITY {
        return Err(SheetFault::Capacity);
    }
    let candidates = &mut scratch.candidates;
    let found = candidates.sweep(solver, m, &mut work[..list.len()]);
    if found {
        carry(&scratch.old, &candidates.names, table);
    }
    Ok(found)
}
