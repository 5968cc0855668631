// Reports of a sheet or of a refused text, written into a byte space.
#![tactic(auto)]

mod line;
#[cfg(test)]
mod tests;
pub mod write;
