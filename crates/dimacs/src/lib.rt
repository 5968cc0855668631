// The narrowed DIMACS CNF text.
#![tactic(auto)]

ghost use Rattle.std.specs.Prelude.{◌≡◌, ℕ, List};
ghost use Rattle.dimacs.specs.Results.{ReadAs, GivesBack};
ghost use Rattle.dimacs.specs.Written.{Within, written};

mod clauses;
pub mod error;
pub mod formula;
mod header;
mod limits;
mod number;
mod problem;
mod reader;

use error::ReadError;
use faults::ReaderFault;
use formula::Formula;
use limits::MAX_BYTES;
use reader::Reader;
use std::alloc::Global;

// Reads a text for a sheet with this many words of store space: all clauses, or the text's first
// fault.
pub fn read(heap: Global, text: &[u8], space: usize) -> Result<Formula, ReadError>
    ensures exact { ReadAs space text.now result }
    ensures back { (n : ℕ) (cs : List (List ℕ)) → Within space n cs → text.now ≡ written n cs → GivesBack n cs result }
{
    if text.len() > MAX_BYTES {
        return Err(error::refused(1, ReaderFault::TextTooLong.into()));
    }
    let mut reader = Reader::new(heap);
    for line in text.split(|b| *b == b'\n') {
        reader.take_line(line)?;
    }
    reader.finish(space)
}
