// What a solver of clause lists means, and code that is proved once for every solver.
#![tactic(auto)]

ghost use Rattle.std.specs.Prelude.{◌≡◌, ℕ, ◌≤◌, Bool, List, Option};
ghost use Rattle.solver.specs.Search.{Searched, valued, flipped, left};

pub mod accept;
pub mod assumed;
pub mod compare;
pub mod kept;

use faults::SolverFault;

pub trait Solver {
    // The largest number of variables.
    const CAPACITY: usize;

    // The same number, for contracts.
    ghost CAPACITY: { ℕ };

    // How many searches were accepted.
    ghost tally: { Self → ℕ };

    // The assignment that is kept, the bits of the variables from 1 on, if one is.
    ghost kept: { Self → Option (List Bool) };

    // Whether some model of the list over m variables makes every assumed literal true: such a one is kept then, and else nothing.
    fn search(&mut self, m: usize, list: &[u16], assumed: &[u16]) -> Result<bool, SolverFault>
        ensures { Searched tally kept CAPACITY m list.now assumed.now self.old self.new result };

    // `value` and `flip` have no provided body: that would need a public method that lends what is kept to be changed.

    // The kept bit of a variable.
    fn value(&self, v: usize) -> Result<bool, SolverFault>
        ensures { result ≡ valued (kept self.now) v };

    // Flips the kept bit of a variable if the list is satisfied then, and says whether it did.
    fn flip(&mut self, v: usize, list: &[u16]) -> Result<bool, SolverFault>
        ensures answer { result ≡ flipped (kept self.old) v list.now }
        ensures after { kept self.new ≡ left (kept self.old) v result }
        ensures tallied { tally self.new ≡ tally self.old };

    ghost bounds: { (1 ≤ CAPACITY) × (CAPACITY ≤ 2000) };
}
