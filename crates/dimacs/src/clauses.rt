// The clauses of a text, as they come behind the header.
ghost use Rattle.std.specs.Prelude.{◌≡◌, ◌<◌, ◌≤◌, true, length};
ghost use Rattle.cnf.specs.Words.{good, read, well};

use crate::error::{ReadError, refused};
use crate::formula::Formula;
use crate::number::read_number;
use crate::problem::Problem;
use cnf::limits::{MAX_LITERALS, MAX_WORDS};
use faults::{Fault, ReaderFault, SheetFault};
use std::alloc::Global;

// The header, the closed clauses in words and how many they are, and the literals of the current
// one, which is not ended yet.
#[derive(Drop)]
pub(crate) struct Clauses {
    pub(crate) problem: Problem,
    pub(crate) words: Vec<u16>,
    pub(crate) count: usize,
    pub(crate) current: Vec<u16>,
    ghost few: { problem.nets ≤ 2000 },
    ghost form: { well problem.nets words.items ≡ true },
    ghost counted: { count ≡ length (read words.items) },
    ghost current_form: { good problem.nets current.items ≡ true },
}

impl Clauses {
    ghost use Rattle.std.specs.Prelude.{[], ◌∷◌, ◌++◌, Ok, OnOk, IfErr, IfOk};
    ghost use Rattle.dimacs.specs.Numbers.{number};
    ghost use Rattle.dimacs.specs.Text.{placed, words, judged};
    ghost use Rattle.dimacs.specs.Results.{contents};
    ghost use Rattle.dimacs.specs.Progress.{done, current_with, done_with, numbers_say, Reads, Stops, Faults};

    pub(crate) fn new(heap: Global, problem: Problem) -> Clauses
        requires { problem.nets ≤ 2000 }
        ensures problem { result.problem ≡ problem }
        ensures words { result.words.items ≡ [] }
        ensures current { result.current.items ≡ [] }
    {
        Clauses {
            problem,
            words: Vec::new(heap),
            count: 0,
            current: Vec::new(heap),
        }
    }

    // The code of a number in the current clause, or why it has none.
    fn judge(&self, token: &[u8]) -> Result<u16, Fault>
        ensures { result
            ≡ judged self.now.problem.nets (length self.now.current.items) (number token.now) }
    {
        let code = read_number(token).ok_or(ReaderFault::MalformedNumber)?;
        if code / 2 > self.problem.nets {
            return Err(SheetFault::NoSuchVariable.into());
        }
        if code > 0 && self.current.len() >= MAX_LITERALS {
            return Err(SheetFault::TooManyLiterals.into());
        }
        Ok(code as u16)
    }

    // Ends the current clause.
    fn close(&mut self) -> Result<(), ReadError>
        ensures problem { self.new.problem ≡ self.old.problem }
        ensures closed { OnOk result
            (done self.new ≡ done_with (done self.old) self.old.current.items 0) }
        ensures current { OnOk result (self.new.current.items ≡ []) }
        ensures err { IfErr result (λ e. e ≡ ReadError.Memory) }
    {
        let len = self.current.len();
        // Room for the whole clause comes first, so that no count is left without its literals; and for a word alone before
        // it, so that a full space doubles whatever the clause's length.
        self.words.reserve(1)?;
        self.words.reserve(len + 1)?;
        self.words.push(len as u16).unwrap();
        self.words.extend_from_slice(&self.current).unwrap();
        self.count += 1;
        self.current.clear();
        Ok(())
    }

    // Takes one code more: 0 ends the current clause.
    fn take(&mut self, code: u16) -> Result<(), ReadError>
        requires { 0 < code
            → good self.old.problem.nets (self.old.current.items ++ code ∷ []) ≡ true }
        ensures problem { self.new.problem ≡ self.old.problem }
        ensures closed { OnOk result
            (done self.new ≡ done_with (done self.old) self.old.current.items code) }
        ensures current { OnOk result
            (self.new.current.items ≡ current_with self.old.current.items code) }
        ensures err { IfErr result (λ e. e ≡ ReadError.Memory) }
    {
        if code == 0 {
            return self.close();
        }
        self.current.push(code)?;
        Ok(())
    }

    // Takes the number that stands on a line.
    fn take_number(&mut self, token: &[u8], line: usize) -> Result<(), ReadError>
        ensures ok { OnOk result (Reads self.old (placed line token.now ∷ []) self.new) }
        ensures err { IfErr result (Stops self.old (placed line token.now ∷ [])) }
    {
        let code = self.judge(token).map_err(|fault| refused(line, fault))?;
        self.take(code)
    }

    // Takes the numbers of a line.
    pub(crate) fn take_line(&mut self, text: &[u8], line: usize) -> Result<(), ReadError>
        ensures ok { OnOk result (Reads self.old (words (placed line text.now)) self.new) }
        ensures err { IfErr result (Stops self.old (words (placed line text.now))) }
    {
        // No iterator for an empty line: a text may have many.
        if text.is_empty() {
            return Ok(());
        }
        let tokens = text
            .split(|b| matches!(b, b' ' | b'\t'))
            .filter(|token| !token.is_empty());
        for token in tokens {
            self.take_number(token, line)?;
        }
        Ok(())
    }

    // Judges the text at its end, which is on this line: no clause is open, there are as many as
    // declared, and their words fit the store space.
    pub(crate) fn finish(self, space: usize, line: usize) -> Result<Formula, ReadError>
        ensures ok { IfOk result (λ f. numbers_say self space line [] ≡ Ok (contents f)) }
        ensures err { IfErr result (Faults (numbers_say self space line [])) }
    {
        if !self.current.is_empty() || self.count != self.problem.clauses as usize {
            return Err(refused(line, ReaderFault::ClauseCount.into()));
        }
        if self.words.len() > space.min(MAX_WORDS) {
            return Err(refused(line, SheetFault::StoreFull.into()));
        }
        let Clauses {
            problem,
            words,
            count,
            current: _,
        } = self;
        Ok(Formula {
            nets: problem.nets as usize,
            count,
            words,
        })
    }
}
