// Which searches are accepted.
ghost use Rattle.std.specs.Prelude.{◌≡◌, true, false, IfErr, IfOk, OnErr};
ghost use Rattle.cnf.specs.Truth.{inside};
ghost use Rattle.cnf.specs.Words.{well};
ghost use Rattle.solver.specs.Search.{accepts};

use faults::SolverFault;
use words::check::{all_named, well_formed};

// The most literals that a search may assume.
const MAX_ASSUMED: usize = 8;

// Whether a search is accepted by a solver of this capacity.
pub fn is_accepted(capacity: usize, m: usize, list: &[u16], assumed: &[u16]) -> bool
    ensures { result ≡ accepts capacity m list.now assumed.now }
{
    m <= capacity && well_formed(m, list) && assumed.len() <= MAX_ASSUMED && all_named(m, assumed)
}

// An accepted search: a well formed list over m variables, and assumed literals of these.
#[derive(Clone, Copy)]
pub struct Accepted<'a> {
    pub m: usize,
    pub list: &'a [u16],
    pub assumed: &'a [u16],
    pub ghost formed: { well m list.now ≡ true },
    pub ghost known: { inside m assumed.now ≡ true },
}

impl<'a> Accepted<'a> {
    // The search, if a solver of this capacity accepts it.
    pub fn new(
        capacity: usize,
        m: usize,
        list: &'a [u16],
        assumed: &'a [u16],
    ) -> Result<Accepted<'a>, SolverFault>
        ensures refused { OnErr result (accepts capacity m list.now assumed.now ≡ false) }
        ensures fault { IfErr result (λ e. e ≡ SolverFault.BadSearch) }
        ensures accepted { IfOk result (λ _. accepts capacity m list.now assumed.now ≡ true) }
        ensures m { IfOk result (λ s. s.m ≡ m) }
        ensures list { IfOk result (λ s. s.list.now ≡ list.now) }
        ensures assumed { IfOk result (λ s. s.assumed.now ≡ assumed.now) }
    {
        if !is_accepted(capacity, m, list, assumed) {
            return Err(SolverFault::BadSearch);
        }
        Ok(Accepted { m, list, assumed })
    }
}
