// The solver by search, and what it keeps.
ghost use Rattle.std.specs.Prelude.{◌≡◌};

use crate::state::State;
use solver::kept::Kept;

// The spaces have room for the largest search, so no search allocates.
#[derive(Drop)]
pub struct SearchSolver {
    pub(crate) state: State,
    pub(crate) kept: Kept,
    pub(crate) tally: u32,
    ghost room: { kept.room ≡ 2000 },
}
