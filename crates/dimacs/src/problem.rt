// The header of a text, its problem line: `p cnf`, the number of nets and the number of clauses.

// The two numbers that a header declares.
#[derive(Clone, Copy)]
pub struct Problem {
    pub nets: u32,
    pub clauses: u32,
}
