// The spaces that a sweep works in.
ghost use Rattle.std.specs.Prelude.{◌≡◌, ◌+◌, ◌≤◌, vec_len, MatchResult};
ghost use Rattle.cnf.specs.Open.{Refuses};

use crate::candidates::Candidates;
use cnf::limits::MAX_NETS;
use cnf::open::OpenError;
use faults::SheetFault;
use std::alloc::Global;

// The number of each variable and back, with an entry for each net and one for the constant, and the classes of the
// variables that are numbered.
#[derive(Drop)]
pub struct Scratch {
    pub(crate) rank: Vec<u16>,
    pub(crate) old: Vec<u16>,
    pub(crate) candidates: Candidates,
    ghost some: { 1 ≤ vec_len rank },
    ghost few: { vec_len rank ≤ 2001 },
    ghost back: { vec_len old ≡ vec_len rank },
}

impl Scratch {
    // The spaces for a number of nets.
    pub fn new(heap: Global, nets: usize) -> Result<Scratch, OpenError>
        ensures { MatchResult result (λ s. (nets ≤ 2000) × (vec_len s.rank ≡ nets + 1)) (Refuses nets) }
    {
        if nets > MAX_NETS {
            return Err(OpenError::Refused(SheetFault::TooManyNets));
        }
        Ok(Scratch {
            rank: vec![in heap; 0; nets + 1]?,
            old: vec![in heap; 0; nets + 1]?,
            candidates: Candidates::new(heap)?,
        })
    }
}
