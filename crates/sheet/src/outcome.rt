// What a sweep answers.

// Of the variables that were free before, how many are now fixed, and how many are now tied.
#[derive(Clone, Copy, PartialEq, Eq, Debug)]
pub struct Counts {
    pub fixed: usize,
    pub tied: usize,
}

// Contradiction: no assignment satisfies the clauses. That is an answer of its own, which the `None` of an `Option` would
// not say.
#[derive(Clone, Copy, PartialEq, Eq, Debug)]
pub enum Outcome {
    Contradiction,
    Settled(Counts),
}
