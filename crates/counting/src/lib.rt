// A solver that tries every assignment in turn: slow, and plain enough to hold the others to.
#![tactic(auto)]

ghost use Rattle.std.specs.Prelude.{◌≡◌, IfOk, None};
ghost use Rattle.std.proofs.Common.{rules};

mod find;
#[cfg(test)]
mod tests;

use faults::SolverFault;
use find::{MAX_VARIABLES, find_model};
use solver::Solver;
use solver::accept::Accepted;
use solver::kept::Kept;
use std::alloc::{AllocError, Global};

// The space for the bits is taken once, so a search takes no memory.
#[derive(Drop)]
pub struct CountingSolver {
    kept: Kept,
    tally: u32,
    ghost room: { kept.room ≡ 20 },
}

impl CountingSolver {
    // A solver that has searched nothing yet.
    pub fn new(heap: Global) -> Result<CountingSolver, AllocError>
        ensures tally { IfOk result (λ s. s.tally ≡ 0) }
        ensures kept { IfOk result (λ s. s.kept.bits ≡ None) }
    {
        Ok(CountingSolver {
            kept: Kept::with_capacity(heap, MAX_VARIABLES)?,
            tally: 0,
        })
    }
}

impl Solver for CountingSolver {
    const CAPACITY: usize = MAX_VARIABLES;

    ghost CAPACITY = { 20 };

    ghost tally = { λ s. s.tally };

    ghost kept = { λ s. s.kept.bits };

    ghost bounds = { Prim.search rules };

    fn search(&mut self, m: usize, list: &[u16], assumed: &[u16]) -> Result<bool, SolverFault> {
        let search = Accepted::new(Self::CAPACITY, m, list, assumed)?;
        self.tally = self.tally.saturating_add(1);
        Ok(find_model(&mut self.kept, &search))
    }

    fn value(&self, v: usize) -> Result<bool, SolverFault> {
        self.kept.value(v)
    }

    fn flip(&mut self, v: usize, list: &[u16]) -> Result<bool, SolverFault> {
        self.kept.flip(v, list)
    }
}
