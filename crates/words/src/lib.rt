// Clause lists in words: their clauses, tests of their form, their truth under bits, and a table applied to them in place.
#![tactic(auto)]

pub mod apply;
pub mod check;
pub mod clauses;
pub mod eval;
#[cfg(test)]
mod tests;
