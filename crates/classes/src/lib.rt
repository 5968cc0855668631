// Classes of equal literals: the sweep of a set of clauses, generic over the solver.
#![tactic(auto)]

mod candidates;
pub mod group;
pub mod laws;
mod refine;
mod renumber;
pub mod scratch;
mod settle;
