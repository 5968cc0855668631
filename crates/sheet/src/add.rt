// Additions, and waking.
ghost use Rattle.std.specs.Prelude.{◌≡◌, ◌≤◌, [], ◌∷◌, Some};
ghost use Rattle.sheet.specs.Of.{state_of};
ghost use Rattle.sheet.specs.State.{broken};
ghost use Rattle.sheet.specs.Calls.{Does, joined, added, addition_refusal, Storable, storing_refusal, contradicted, woken, waking_refusal};
ghost use Rattle.sheet.specs.Laws.{Adds};

use crate::Sheet;
use crate::store::{append, join, join_all};
use cnf::limits::MAX_LITERALS;
use faults::SheetFault;
use words::apply::apply;
use words::check::all_named;

impl Sheet {
    // Whether the sheet is contradictory: only the empty clause takes one word.
    pub fn is_contradictory(&self) -> bool
        ensures { result ≡ broken (state_of self.now).store }
    {
        self.words.len() == 1
    }

    // Makes the sheet contradictory.
    pub(crate) fn contradict(&mut self)
        requires { 1 ≤ (state_of self.old).space }
        ensures { state_of self.new ≡ contradicted (state_of self.old) }
    {
        self.words.clear();
        self.words.push_reserved(0);
        self.waiting.fill(false);
    }

    // Stores what the table left of a clause.
    fn store(&mut self, body: &[u16]) -> Result<(), SheetFault>
        requires { Storable (state_of self.old) body.now }
        ensures { Does (storing_refusal (state_of self.old) body.now) (state_of self.old)
            (joined (state_of self.old) (Some body.now)) tt (state_of self.new) result }
    {
        if body.is_empty() {
            if self.space == 0 {
                return Err(SheetFault::StoreFull);
            }
            self.contradict();
            return Ok(());
        }
        let used = self.words.len() + 1 + body.len();
        if used > self.space {
            return Err(SheetFault::StoreFull);
        }
        append(&mut self.words, body);
        join(body, &mut self.waiting);
        Ok(())
    }

    // Adds a clause: the table is applied to it, and what is left goes to the end of the store.
    pub fn add(&mut self, clause: &[u16]) -> Result<(), SheetFault>
        ensures does { Does (addition_refusal (state_of self.old) clause.now) (state_of self.old)
            (added (state_of self.old) clause.now) tt (state_of self.new) result }
        ensures law { Adds clause.now (state_of self.old) (state_of self.new) result }
    {
        if self.is_contradictory() {
            return Err(SheetFault::Contradictory);
        }
        if clause.len() > MAX_LITERALS {
            return Err(SheetFault::TooManyLiterals);
        }
        if !all_named(self.nets(), clause) {
            return Err(SheetFault::NoSuchVariable);
        }
        // No array vector: it fills all its places, moves them, and blanks those that are cut off.
        let mut literals = [0; MAX_LITERALS];
        let body = &mut literals[..clause.len()];
        body.copy_from_slice(clause);
        match apply(&self.table, body) {
            None => Ok(()),
            Some(count) => self.store(&body[..count]),
        }
    }

    // Lets all variables of the store wait.
    pub fn wake(&mut self) -> Result<(), SheetFault>
        ensures { Does (waking_refusal (state_of self.old)) (state_of self.old)
            (woken (state_of self.old)) tt (state_of self.new) result }
    {
        if self.is_contradictory() {
            return Err(SheetFault::Contradictory);
        }
        join_all(&self.words, &mut self.waiting);
        Ok(())
    }
}
