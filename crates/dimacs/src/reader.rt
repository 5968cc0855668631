// The reader: one line of the text after the other.
ghost use Rattle.std.specs.Prelude.{◌≡◌, ◌+◌, ◌<◌, ◌≤◌, None, Ok, OnOk, IfOk, IfErr};
ghost use Rattle.dimacs.specs.Results.{contents};
ghost use Rattle.dimacs.specs.Progress.{ends, Goes, Halts, Faults, Headed};

use crate::clauses::Clauses;
use crate::error::{ReadError, refused};
use crate::formula::Formula;
use crate::header::read_header;
use crate::limits::MAX_CLAUSES;
use crate::problem::Problem;
use cnf::limits::MAX_NETS;
use faults::ReaderFault;
use std::alloc::Global;

// How far a text is read: how many of its lines, and the clauses once the header was among them.
#[derive(Drop)]
pub(crate) struct Reader {
    heap: Global,
    line: usize,
    clauses: Option<Clauses>,
}

// The header that a line is.
fn take_header(text: &[u8], line: usize) -> Result<Problem, ReadError>
    ensures few { IfOk result (λ p. p.nets ≤ 2000) }
    ensures headed { Headed line text.now result }
{
    let Some(problem) = read_header(text) else {
        return Err(refused(line, ReaderFault::HeaderForm.into()));
    };
    if problem.nets as usize > MAX_NETS || problem.clauses > MAX_CLAUSES {
        return Err(refused(line, ReaderFault::HeaderLimit.into()));
    }
    Ok(problem)
}

impl Reader {
    pub(crate) fn new(heap: Global) -> Reader
        ensures line { result.line ≡ 0 }
        ensures clauses { result.clauses ≡ None }
    {
        Reader {
            heap,
            line: 0,
            clauses: None,
        }
    }

    // Takes one line more.
    pub(crate) fn take_line(&mut self, text: &[u8]) -> Result<(), ReadError>
        requires { self.old.line < 100000 }
        ensures line { self.new.line ≡ self.old.line + 1 }
        ensures ok { OnOk result (Goes self.old text.now self.new) }
        ensures err { IfErr result (Halts self.old text.now) }
    {
        self.line += 1;
        if text.first() == Some(&b'c') {
            return Ok(());
        }
        match &mut self.clauses {
            Some(clauses) => clauses.take_line(text, self.line),
            None => {
                let problem = take_header(text, self.line)?;
                self.clauses = Some(Clauses::new(self.heap, problem));
                Ok(())
            }
        }
    }

    // All lines are read: judges the whole.
    pub(crate) fn finish(self, space: usize) -> Result<Formula, ReadError>
        ensures ok { IfOk result (λ f. ends self space ≡ Ok (contents f)) }
        ensures err { IfErr result (Faults (ends self space)) }
    {
        let Reader {
            heap: _,
            line,
            clauses,
        } = self;
        match clauses {
            Some(clauses) => clauses.finish(space, line),
            None => Err(refused(line, ReaderFault::HeaderForm.into())),
        }
    }
}
