// Literals, clauses and the representative table: the theory that all other crates cite, and the code closest to it.
#![tactic(auto)]

pub mod kind;
pub mod laws;
pub mod limits;
pub mod literal;
pub mod open;
pub mod table;
#[cfg(test)]
mod tests;
