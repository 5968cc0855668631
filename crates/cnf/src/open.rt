// Why a table, or what is built on one, cannot be opened.
ghost use Rattle.std.specs.Prelude.{◌≡◌};
ghost use Rattle.cnf.specs.declared.open.OpenError.TheVariants.{Memory};

use faults::SheetFault;
use std::alloc::AllocError;

// Memory: there was not enough of it. Refused: what was asked for is beyond the limits.
#[derive(Clone, Copy, PartialEq, Eq, Debug)]
pub enum OpenError {
    Memory,
    Refused(SheetFault),
}

impl From<AllocError> for OpenError {
    ghost from_gives = { λ _ r. r ≡ Memory };

    fn from(_e: AllocError) -> OpenError {
        OpenError::Memory
    }
}
