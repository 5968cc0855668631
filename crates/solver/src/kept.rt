// What a solver keeps: an assignment, or none.
ghost use Rattle.std.specs.Prelude.{◌≡◌, [], length, vec_capacity, IfOk, IfSome, MatchOption, None, Some};
ghost use Rattle.solver.specs.Search.{kept_by, valued, flipped, left};
ghost use Rattle.solver.specs.Keeping.{pushed};

use faults::SolverFault;
use std::alloc::{AllocError, Global};
use std::marker::Model;
use words::check::well_formed;
use words::eval::satisfied;

// The bits of the variables from 1 on, which count only if they are present: their space is taken once, and stays while
// nothing is kept.
#[derive(Drop)]
pub struct Kept {
    bits: Vec<bool>,
    present: bool,
}

impl Model for Kept {
    ghost use Rattle.std.specs.Prelude.{vec_items, vec_capacity};
    ghost use Rattle.solver.specs.Search.{kept_by};
    ghost use Rattle.solver.specs.Keeping.{Keeping};

    ghost Value = { Keeping };

    ghost view = { λ k. record { room = vec_capacity k.bits; bits = kept_by k.present (vec_items k.bits); lying = vec_items k.bits } };
}

impl Kept {
    // Room for the bits of n variables, with nothing kept.
    pub fn with_capacity(heap: Global, n: usize) -> Result<Kept, AllocError>
        ensures room { IfOk result (λ k. k.room ≡ n) }
        ensures empty { IfOk result (λ k. k.bits ≡ None) }
    {
        Ok(Kept::new(Vec::with_capacity(heap, n)?, false))
    }

    // Takes a row for the space. Its bits are kept if they are present, and else lie there and do not count.
    pub fn new(bits: Vec<bool>, present: bool) -> Kept
        ensures bits { result.bits ≡ kept_by present bits.items }
        ensures lying { result.lying ≡ bits.items }
        ensures room { result.room ≡ vec_capacity bits }
    {
        Kept { bits, present }
    }

    // Gives the space back, with the bits that lie in it.
    pub fn into_bits(self) -> Vec<bool>
        ensures kept { IfSome self.bits (λ bits. result.items ≡ bits) }
        ensures lying { result.items ≡ self.lying }
        ensures room { vec_capacity result ≡ self.room }
    {
        let Kept { bits, present: _ } = self;
        bits
    }

    // The bits that are kept, if any are.
    pub fn bits(&self) -> Option<&[bool]>
        ensures kept { MatchOption result (self.now.bits ≡ None) (λ bits. self.now.bits ≡ Some bits.now) }
        ensures lying { IfSome result (λ bits. self.now.lying ≡ bits.now) }
    {
        if self.present { Some(&self.bits) } else { None }
    }

    // Forgets what is kept.
    pub fn clear(&mut self)
        ensures bits { self.new.bits ≡ None }
        ensures lying { self.new.lying ≡ self.old.lying }
        ensures room { self.new.room ≡ self.old.room }
    {
        self.present = false;
    }

    // Keeps an assignment to no variable, which `push` makes longer.
    pub fn start(&mut self)
        ensures bits { self.new.bits ≡ Some [] }
        ensures room { self.new.room ≡ self.old.room }
    {
        self.bits.clear();
        self.present = true;
    }

    // Adds the bit of the next variable to what is kept, where there is room.
    pub fn push(&mut self, bit: bool)
        ensures bits { self.new.bits ≡ pushed self.old bit }
        ensures room { self.new.room ≡ self.old.room }
    {
        if self.bits.len() < self.bits.capacity() {
            self.bits.push_reserved(bit);
        }
    }

    // The bit of a variable.
    pub fn value(&self, v: usize) -> Result<bool, SolverFault>
        ensures { result ≡ valued self.now.bits v }
    {
        if !self.present {
            return Err(SolverFault::NothingKept);
        }
        if v < 1 || v > self.bits.len() {
            return Err(SolverFault::NoVariable);
        }
        Ok(self.bits[v - 1])
    }

    // Flips the bit of a variable if the list is satisfied then, and says whether it did.
    #[tactic(auto, using(crate::proofs::Keeping::unflipped))]
    pub fn flip(&mut self, v: usize, list: &[u16]) -> Result<bool, SolverFault>
        ensures answer { result ≡ flipped self.old.bits v list.now }
        ensures after { self.new.bits ≡ left self.old.bits v result }
        ensures len { length self.new.lying ≡ length self.old.lying }
        ensures room { self.new.room ≡ self.old.room }
    {
        let old = self.value(v)?;
        if !well_formed(self.bits.len(), list) {
            return Err(SolverFault::BadSearch);
        }
        self.bits[v - 1] = !old;
        if satisfied(list, &self.bits) {
            return Ok(true);
        }
        self.bits[v - 1] = old;
        Ok(false)
    }
}
