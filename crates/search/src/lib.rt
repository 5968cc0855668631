// A solver by search: first what clauses force, then the lowest open variable both ways.
#![tactic(auto)]

ghost use Rattle.std.specs.Prelude.{◌≡◌, IfOk, None};
ghost use Rattle.std.proofs.Common.{rules};

mod cell;
mod searcher;
mod state;

use faults::SolverFault;
pub use searcher::SearchSolver;
use solver::Solver;
use solver::accept::Accepted;
use solver::kept::Kept;
use state::{State, keep};
use std::alloc::{AllocError, Global};

impl SearchSolver {
    // A solver that has searched nothing yet.
    pub fn new(heap: Global) -> Result<SearchSolver, AllocError>
        ensures tally { IfOk result (λ s. s.tally ≡ 0) }
        ensures kept { IfOk result (λ s. s.kept.bits ≡ None) }
    {
        let cells = Vec::with_capacity(heap, Self::CAPACITY)?;
        let trail = Vec::with_capacity(heap, Self::CAPACITY)?;
        Ok(SearchSolver {
            state: State { cells, trail },
            kept: Kept::with_capacity(heap, Self::CAPACITY)?,
            tally: 0,
        })
    }
}

impl Solver for SearchSolver {
    const CAPACITY: usize = 2000;

    ghost CAPACITY = { 2000 };

    ghost tally = { λ s. s.tally };

    ghost kept = { λ s. s.kept.bits };

    ghost bounds = { Prim.search rules };

    fn search(&mut self, m: usize, list: &[u16], assumed: &[u16]) -> Result<bool, SolverFault> {
        let search = Accepted::new(Self::CAPACITY, m, list, assumed)?;
        self.tally = self.tally.saturating_add(1);
        let found = self.state.find(&search);
        if found {
            keep(&self.state.cells, &mut self.kept);
        } else {
            self.kept.clear();
        }
        Ok(found)
    }

    fn value(&self, v: usize) -> Result<bool, SolverFault> {
        self.kept.value(v)
    }

    fn flip(&mut self, v: usize, list: &[u16]) -> Result<bool, SolverFault> {
        self.kept.flip(v, list)
    }
}
