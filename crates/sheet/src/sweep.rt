// Sweeps: new representatives from the clauses themselves.
ghost use Rattle.std.specs.Prelude.{◌≡◌, ℕ, ◌+◌, ◌*◌, ◌<◌, ◌≤◌, Bool, true, false, length, if◌then◌else◌, None, slice_index, EachIndex};
ghost use Rattle.cnf.specs.Table.{by};
ghost use Rattle.propagation.specs.Propagate.{rewritten};
ghost use Rattle.cnf.specs.Words.{read};
ghost use Rattle.sheet.specs.Of.{state_of};
ghost use Rattle.sheet.specs.Calls.{Does, newly, landed, full_swept, outcome, sweep_refusal};
ghost use Rattle.sheet.specs.Sweep.{Ready, Serves};
ghost use Rattle.sheet.specs.Laws.{Sweeps};

use crate::{Counts, Outcome, Sheet};
use classes::group::sweep_group;
use faults::SheetFault;
use propagation::propagate::rewrite;
use solver::Solver;
use std::mem::swap;

// Lets each variable stand for itself. Not `own_entries`, which makes a new table and so needs memory.
fn reset(entries: &mut [u16])
    requires { length entries.old ≤ 2001 }
    ensures { EachIndex entries.new (λ v. slice_index entries.new v ≡ 2 * v) }
{
    for (v, entry) in entries.iter_mut().enumerate() {
        *entry = (2 * v) as u16;
    }
}

// How many variables that are free by the first table are fixed, and how many are tied, by the
// second.
fn count(before: &[u16], after: &[u16]) -> Counts
    requires same_size { length after.now ≡ length before.now }
    requires small { length before.now ≤ 2001 }
    ensures fixed { result.fixed ≡ newly 1 before.now after.now }
    ensures tied { result.tied ≡ newly 2 before.now after.now }
{
    let mut counts = Counts { fixed: 0, tied: 0 };
    for (v, (was, now)) in before.iter().zip(after).enumerate() {
        let itself = (2 * v) as u16;
        if *was == itself && *now != itself {
            if *now < 2 {
                counts.fixed += 1;
            } else {
                counts.tied += 1;
            }
        }
    }
    counts
}

impl Sheet {
    // Takes over the new representatives of a set of stored clauses, or that the set has no model.
    // A flag and no `Option` of the entries, since these lie in the sheet's own space.
    fn take_over(&mut self, found: bool) -> Outcome
        requires { Ready (state_of self.old) self.old.news.items found }
        ensures state { state_of self.new ≡ landed (state_of self.old) (if found
            then rewritten (by self.old.news.items) (state_of self.old).table (state_of self.old).store
            else None) }
        ensures answer { result ≡ outcome (state_of self.old) (state_of self.new) }
    {
        if !found {
            self.contradict();
            return Outcome::Contradiction;
        }
        self.next.copy_from_slice(&self.table);
        match rewrite(&self.news, &mut self.next, &mut self.words) {
            None => {
                // what is left of the words is no clause list
                self.words.clear();
                self.contradict();
                Outcome::Contradiction
            }
            Some(used) => {
                let counts = count(&self.table, &self.next);
                swap(&mut self.table, &mut self.next);
                self.words.truncate(used);
                Outcome::Settled(counts)
            }
        }
    }

    // Sweeps the whole store, and lets nothing wait.
    pub fn sweep<S: Solver>(
        &mut self,
        solver: &mut S,
        work: &mut [u16],
    ) -> Result<Outcome, SheetFault>
        ensures does { Does (sweep_refusal S.CAPACITY (length work.old) (state_of self.old)) (state_of self.old)
            (full_swept (state_of self.old)) (outcome (state_of self.old) (full_swept (state_of self.old)))
            (state_of self.new) result }
        ensures law { Sweeps (state_of self.old) (state_of self.new) result }
        ensures served { Serves S.tally (state_of self.old) solver.old solver.new result }
    {
        if self.is_contradictory() {
            return Err(SheetFault::Contradictory);
        }
        reset(&mut self.news);
        let found = sweep_group(&mut self.scratch, solver, &self.words, work, &mut self.news)?;
        let outcome = self.take_over(found);
        self.waiting.fill(false);
        Ok(outcome)
    }
}
