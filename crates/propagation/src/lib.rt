// What a changed table does to a store: representatives are replaced, the table is applied, and one-literal clauses are propagated.
#![tactic(auto)]

pub mod follow;
pub mod laws;
pub mod propagate;
pub mod unit;
