// The candidate classes of a set of clauses: they are split by models until each is one class of equal literals.
ghost use Rattle.std.specs.Prelude.{◌≡◌, ℕ, ◌+◌, ◌-◌, ◌*◌, ◌<◌, ◌≤◌, true, List, IfErr, length, take, vec_len, vec_capacity};
ghost use Rattle.cnf.specs.Words.{read, well};
ghost use Rattle.cnf.specs.Table.{Tabled};
ghost use Rattle.classes.specs.Classes.{Plain, Sweeping, Sweeps};

use crate::refine::refine;
use crate::settle::{ask, differ, recall, start};
use cnf::limits::MAX_NETS;
use cnf::literal::FALSE;
use cnf::open::OpenError;
use cnf::table::own_entries;
use solver::Solver;
use std::alloc::Global;
use words::apply::apply_all;

// `names` has an entry for the constant and one for each variable of the sweep: the literal that names its class. The
// other two keep their full length, so that no sweep has to make them anew: `split` has what names the part that a model
// splits off, and `spare` is the table that replaces one variable, and plain otherwise. The bits are of a model.
// There is room for as many variables as a sheet has nets at most, so no sweep allocates.
#[derive(Drop)]
pub(crate) struct Candidates {
    pub(crate) names: Vec<u16>,
    split: Vec<u16>,
    spare: Vec<u16>,
    bits: Vec<bool>,
    ghost some: { 1 ≤ vec_len names },
    ghost few: { vec_len names ≤ 2001 },
    ghost tabled: { Tabled names.items },
    ghost split_size: { vec_len split ≡ 2001 },
    ghost spare_size: { vec_len spare ≡ 2001 },
    ghost plain: { Plain spare.items },
    ghost names_room: { 2001 ≤ vec_capacity names },
    ghost bits_room: { 2001 ≤ vec_capacity bits },
}

impl Candidates {
    // The classes of no variable.
    pub(crate) fn new(heap: Global) -> Result<Candidates, OpenError>
        ensures { IfErr result (λ e. e ≡ OpenError.Memory) }
    {
        let mut names = Vec::with_capacity(heap, MAX_NETS + 1)?;
        names.push_reserved(FALSE);
        Ok(Candidates {
            names,
            split: vec![in heap; 0; MAX_NETS + 1]?,
            spare: own_entries(heap, MAX_NETS)?,
            bits: Vec::with_capacity(heap, MAX_NETS + 1)?,
        })
    }

    // Settles the variable v, where all lower ones are settled, and says how many words of the list are left.
    // Told from its name, v names itself after the split, since what is lower stays where it is; otherwise its name
    // replaces it in the list.
    fn settle<S: Solver>(&mut self, solver: &mut S, v: usize, list: &mut [u16]) -> usize
        requires capacity { vec_len self.old.names ≤ S.CAPACITY + 1 }
        requires net { 1 ≤ v }
        requires known { v < vec_len self.old.names }
        requires good { well (vec_len self.old.names - 1) list.old ≡ true }
        ensures size { vec_len self.new.names ≡ vec_len self.old.names }
        ensures fewer { result ≤ length list.old }
        ensures good { well (vec_len self.old.names - 1) (take result list.new) ≡ true }
        ensures tallied { S.tally solver.new ≤ S.tally solver.old + 2 }
        ensures step { (cs : List (List ℕ)) → Sweeping cs self.old.names.items v (read list.old) → Sweeping cs self.new.names.items (v + 1) (read (take result list.new)) }
    {
        let own = (2 * v) as u16;
        let old = self.names[v];
        if old == own {
            return list.len();
        }
        if differ(solver, self.names.len() - 1, list, v, old) {
            recall(solver, &self.names, v, &mut self.bits);
            refine(&mut self.names, &mut self.split, &self.bits);
            return list.len();
        }
        self.spare[v] = old;
        let left = apply_all(&self.spare, list);
        self.spare[v] = own;
        left
    }

    // Names each of m variables by its lowest equal literal; `false` if the clauses have no model. What `work` holds
    // after is left open.
    pub(crate) fn sweep<S: Solver>(&mut self, solver: &mut S, m: usize, work: &mut [u16]) -> bool
        requires capacity { m ≤ S.CAPACITY }
        requires good { well m work.old ≡ true }
        ensures answer { Sweeps m (read work.old) self.new.names.items result }
        ensures size { result ≡ true → vec_len self.new.names ≡ m + 1 }
        ensures tallied { S.tally solver.new ≤ S.tally solver.old + 2 * m + 1 }
    {
        if !ask(solver, m, work, &[]) {
            return false;
        }
        start(solver, m, &mut self.names);
        // the list shrinks in place, at the front of the space that is lent
        let mut left = work.len();
        for v in 1..m + 1 {
            left = self.settle(solver, v, &mut work[..left]);
        }
        true
    }
}
