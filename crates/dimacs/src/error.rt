// Why a reading gives nothing. Not one generic error for this and for opening a table: their callers match on different
// faults, and each contract names its own.
ghost use Rattle.std.specs.Prelude.{◌≡◌};
ghost use Rattle.dimacs.specs.declared.error.ReadError.TheVariants.{Memory};

use faults::{Fault, Located};
use std::alloc::{AllocError, AllocFailed};

#[derive(Clone, Copy, PartialEq, Eq, Debug)]
pub enum ReadError {
    // There was no memory for the clauses.
    Memory,
    // The text's first fault.
    Refused(Located),
}

impl From<AllocError> for ReadError {
    ghost from_gives = { λ _ r. r ≡ Memory };

    fn from(_e: AllocError) -> ReadError {
        ReadError::Memory
    }
}

impl From<AllocFailed<u16>> for ReadError {
    ghost from_gives = { λ _ r. r ≡ Memory };

    fn from(_e: AllocFailed<u16>) -> ReadError {
        ReadError::Memory
    }
}

// The refusal of a text for a fault on one of its lines.
pub(crate) fn refused(line: usize, fault: Fault) -> ReadError
    ensures { result ≡ ReadError.Refused (record { line = line; fault = fault }) }
{
    ReadError::Refused(Located { line, fault })
}
