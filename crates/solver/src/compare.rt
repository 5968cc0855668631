// Comparing two literals by a solver.
ghost use Rattle.std.specs.Prelude.{◌+◌, ◌≤◌};
ghost use Rattle.solver.specs.Implied.{Implied};
ghost use Rattle.solver.specs.Search.{Compared};

use crate::Solver;
use cnf::literal::opposite;
use faults::SolverFault;

// Whether every model of a list that makes c true makes d true, by one search for a model that does not.
fn implies<S: Solver>(
    solver: &mut S,
    m: usize,
    list: &[u16],
    c: u16,
    d: u16,
) -> Result<bool, SolverFault>
    ensures implied { Implied S.CAPACITY m list.now c d result }
    ensures tallied { S.tally solver.new ≤ S.tally solver.old + 1 }
{
    Ok(!solver.search(m, list, &[c, opposite(d)])?)
}

// Whether two literals are equal over a list, by at most two searches.
pub fn equal_over<S: Solver>(
    solver: &mut S,
    m: usize,
    list: &[u16],
    c: u16,
    d: u16,
) -> Result<bool, SolverFault>
    ensures compared { Compared S.CAPACITY m list.now c d result }
    ensures tallied { S.tally solver.new ≤ S.tally solver.old + 2 }
{
    Ok(implies(solver, m, list, c, d)? && implies(solver, m, list, d, c)?)
}
