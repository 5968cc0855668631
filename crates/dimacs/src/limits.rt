// The limits of a text, beside those of the clauses in it.

// The longest text, in bytes.
pub(crate) const MAX_BYTES: usize = 60_000;

// The most clauses that a header may declare.
pub(crate) const MAX_CLAUSES: u32 = 8_000;
