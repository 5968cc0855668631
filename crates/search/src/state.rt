// The search: a partial assignment, and the trail of the places that were set.
ghost use Rattle.std.specs.Prelude.{◌≡◌, ◌+◌, ◌<◌, ◌≤◌, true, length, None, Some, take, drop, replicate, vec_len, vec_capacity, All, MatchBool};
ghost use Rattle.cnf.specs.Truth.{named, inside};
ghost use Rattle.cnf.specs.Words.{well};
ghost use Rattle.solver.specs.Search.{Found, NoneFound};
ghost use Rattle.search.specs.Cells.{bits, look, assigned, restored, open_count};

use crate::cell::{Status, first_open, look_at, weigh};
use cnf::literal::opposite;
use solver::accept::Accepted;
use solver::kept::Kept;
use words::clauses::Clauses;

// The cell of the variable v is at the place v - 1. The spaces are taken once, for the largest search, and stay: so a search
// takes no memory. The trail holds places of cells, and has room for every variable that is open.
#[derive(Drop)]
pub(crate) struct State {
    pub(crate) cells: Vec<Option<bool>>,
    pub(crate) trail: Vec<u16>,
    ghost cells_room: { vec_capacity cells ≡ 2000 },
    ghost trail_room: { vec_capacity trail ≡ 2000 },
    ghost small: { length cells.items ≤ 2000 },
    ghost spare: { vec_len trail + open_count cells.items ≤ 2000 },
    ghost places: { All (λ i. i < length cells.items) trail.items },
}

// How a pass over the list ended.
#[derive(Clone, Copy)]
pub(crate) enum Pass {
    Refuted,
    Moved,
    Quiet,
}

impl State {
    ghost use Rattle.search.specs.States.{Grew, Passed, Propagated, Assumed, cells_of, trail_of};
    ghost use Rattle.search.specs.Solving.{Solved, Tried};

    // Makes an open literal true.
    #[tactic(auto, unfolding(crate::specs::Cells::assigned))]
    pub(crate) fn assign(&mut self, code: u16)
        requires known { named (length (cells_of self.old)) code ≡ true }
        requires free { look (cells_of self.old) code ≡ None }
        ensures cells { cells_of self.new ≡ assigned (cells_of self.old) code }
        ensures count { open_count (cells_of self.new) + 1 ≡ open_count (cells_of self.old) }
        ensures grew { Grew self.old self.new }
    {
        let place = code / 2 - 1;
        self.cells[place as usize] = Some(code % 2 == 0);
        self.trail.push_reserved(place);
    }

    // Opens what was set since the trail had `mark` places.
    pub(crate) fn undo(&mut self, mark: usize)
        requires within { mark ≤ vec_len self.old.trail }
        ensures cells { cells_of self.new ≡ restored (cells_of self.old) (drop mark (trail_of self.old)) }
        ensures trail { trail_of self.new ≡ take mark (trail_of self.old) }
    {
        // One place at a time, since what holds of a state holds between the cells and the trail at each turn.
        while self.trail.len() > mark {
            if let Some(place) = self.trail.pop() {
                self.cells[place as usize] = None;
            }
        }
    }

    // Goes once over the list, and makes true what a clause forces. Like the methods below it asks for a list that is well
    // formed for as many variables as there are cells, which no type of the list alone can say.
    pub(crate) fn pass(&mut self, list: &[u16]) -> Pass
        requires formed { well (length (cells_of self.old)) list.now ≡ true }
        ensures grew { Grew self.old self.new }
        ensures passed { Passed list.now self.old self.new result }
    {
        let mut moved = false;
        for clause in Clauses(list) {
            match weigh(&self.cells, clause) {
                Status::Conflict => return Pass::Refuted,
                Status::Forced(code) => {
                    self.assign(code);
                    moved = true;
                }
                Status::Satisfied | Status::Unresolved => {}
            }
        }
        if moved { Pass::Moved } else { Pass::Quiet }
    }

    // Makes true what clauses force, until none forces more: no where a clause fails.
    #[tactic(auto, using(crate::proofs::StateFacts::grew_trans))]
    pub(crate) fn propagate(&mut self, list: &[u16]) -> bool
        requires formed { well (length (cells_of self.old)) list.now ≡ true }
        ensures grew { Grew self.old self.new }
        ensures done { Propagated list.now self.old self.new result }
    {
        loop {
            match self.pass(list) {
                Pass::Refuted => return false,
                Pass::Quiet => return true,
                Pass::Moved => {}
            }
        }
    }

    // Looks for a model that extends the cells: they are one then, and else as they were.
    #[cycle(attempt_solve)]
    pub(crate) fn solve(&mut self, list: &[u16]) -> bool
        requires formed { well (length (cells_of self.old)) list.now ≡ true }
        ensures size { length (cells_of self.new) ≡ length (cells_of self.old) }
        ensures solved { Solved list.now self.old self.new result }
    {
        let mark = self.trail.len();
        if !self.propagate(list) {
            self.undo(mark);
            return false;
        }
        let Some(place) = first_open(&self.cells) else {
            return true;
        };
        let code = 2 * place as u16 + 2;
        if self.attempt(list, code) || self.attempt(list, opposite(code)) {
            return true;
        }
        self.undo(mark);
        false
    }

    // Looks for a model that extends the cells and makes an open literal true: the cells are one then, and else as they were.
    #[cycle(attempt_solve)]
    pub(crate) fn attempt(&mut self, list: &[u16], code: u16) -> bool
        requires formed { well (length (cells_of self.old)) list.now ≡ true }
        requires known { named (length (cells_of self.old)) code ≡ true }
        requires free { look (cells_of self.old) code ≡ None }
        ensures size { length (cells_of self.new) ≡ length (cells_of self.old) }
        ensures tried { Tried code list.now self.old self.new result }
    {
        let mark = self.trail.len();
        self.assign(code);
        if self.solve(list) {
            return true;
        }
        self.undo(mark);
        false
    }

    // Opens m variables, with none set.
    pub(crate) fn reset(&mut self, m: usize)
        requires small { m ≤ 2000 }
        ensures cells { cells_of self.new ≡ replicate m None }
    {
        self.trail.clear();
        self.cells.clear();
        // pushed one by one, since the contract of `extend` lets it allocate
        for _ in 0..m {
            self.cells.push_reserved(None);
        }
    }

    // Makes the assumed literals true: no where one of them is false already.
    pub(crate) fn assume(&mut self, assumed: &[u16]) -> bool
        requires known { inside (length (cells_of self.old)) assumed.now ≡ true }
        ensures grew { Grew self.old self.new }
        ensures assumed { Assumed assumed.now self.old self.new result }
    {
        for code in assumed {
            match look_at(&self.cells, *code) {
                Some(true) => {}
                Some(false) => return false,
                None => self.assign(*code),
            }
        }
        true
    }

    // Looks for a model of the list in which the assumed literals are true: the cells are one then.
    pub(crate) fn find(&mut self, search: &Accepted) -> bool
        requires small { search.now.m ≤ 2000 }
        ensures size { length (cells_of self.new) ≡ search.now.m }
        ensures found { MatchBool result (Found search.now.m search.now.list.now search.now.assumed.now (bits (cells_of self.new))) (NoneFound search.now.list.now search.now.assumed.now) }
    {
        self.reset(search.m);
        self.assume(search.assumed) && self.solve(search.list)
    }
}

// Keeps what the cells say, a variable that is open as false.
pub(crate) fn keep(cells: &[Option<bool>], kept: &mut Kept)
    requires { length cells.now ≤ kept.old.room }
    ensures bits { kept.new.bits ≡ Some (bits cells.now) }
    ensures room { kept.new.room ≡ kept.old.room }
{
    kept.start();
    for cell in cells {
        kept.push(cell.unwrap_or(false));
    }
}
