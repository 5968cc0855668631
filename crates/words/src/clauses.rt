// The clauses of a word list, one after another.
ghost use Rattle.std.specs.Iterator.{YieldsFirstRef, item_count};
ghost use Rattle.cnf.specs.Words.{read};

// A word list whose clauses are still to come. One whose count goes beyond the list has the literals that are there.
#[derive(Clone, Copy)]
pub struct Clauses<'a>(pub &'a [u16]);

impl<'a> Iterator for Clauses<'a> {
    type Item = &'a [u16];

    ghost next_gives = { YieldsFirstRef (λ s. read s.0.now) };

    ghost remaining = { item_count (λ s. read s.0.now) };

    fn next(&mut self) -> Option<&'a [u16]> {
        let (count, rest) = self.0.split_first()?;
        let len = (*count as usize).min(rest.len());
        let (clause, rest) = rest.split_at(len);
        self.0 = rest;
        Some(clause)
    }
}
