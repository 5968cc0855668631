// The limits that the rules set.

// The most nets of a table, and of what is built on one.
pub const MAX_NETS: usize = 2000;

// The most literals of a clause.
pub const MAX_LITERALS: usize = 64;

// The most words of a store space that count.
pub const MAX_WORDS: usize = 30_000;
