// The sheet: clauses over nets, a representative for each net, and the calls on them.
#![tactic(auto)]

mod add;
mod open;
mod outcome;
mod sheet;
mod store;
mod sweep;
#[cfg(test)]
mod tests;

pub use open::Unopened;
pub use outcome::{Counts, Outcome};
pub use sheet::Sheet;
