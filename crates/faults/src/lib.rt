// Why a call is turned down: one enum for each part that can refuse, and one fault around them.
#![tactic(auto)]

ghost use Rattle.std.specs.Prelude.{◌≡◌, Some};
ghost use Rattle.faults.specs.Numbers.{number_of, part_of, name_of};
ghost use Rattle.faults.specs.declared.Fault.TheVariants.{Reader, Sheet, Solver, Names};

use std::fmt;

// A fault of a text.
#[derive(Clone, Copy, PartialEq, Eq, Debug)]
pub enum ReaderFault {
    TextTooLong,
    HeaderForm,
    MalformedNumber,
    HeaderLimit,
    ClauseCount,
}

// A fault of a sheet, or of what is handed to it.
#[derive(Clone, Copy, PartialEq, Eq, Debug)]
pub enum SheetFault {
    NoSuchVariable,
    TooManyLiterals,
    StoreFull,
    Contradictory,
    TooManyNets,
    Radius,
    Capacity,
    SpaceShort,
}

// A fault of a call to a solver.
#[derive(Clone, Copy, PartialEq, Eq, Debug)]
pub enum SolverFault {
    BadSearch,
    NothingKept,
    NoVariable,
}

// A fault of a look-up of a net's name.
#[derive(Clone, Copy, PartialEq, Eq, Debug)]
pub enum NamesFault {
    NoName,
}

// The part that raised a fault.
#[derive(Clone, Copy, PartialEq, Eq, Debug)]
pub enum Part {
    OfReader,
    OfSheet,
    OfSolver,
    OfNames,
}

impl fmt::Display for Part {
    ghost output = { λ p. Some (name_of p) };

    fn fmt<W: fmt::Write>(&self, f: &mut fmt::Formatter<W>) -> fmt::Result {
        f.write_str(match self {
            Part::OfReader => "reader",
            Part::OfSheet => "sheet",
            Part::OfSolver => "solver",
            Part::OfNames => "names",
        })
    }
}

// A fault with the part that raised it.
#[derive(Clone, Copy, PartialEq, Eq, Debug)]
pub enum Fault {
    Reader(ReaderFault),
    Sheet(SheetFault),
    Solver(SolverFault),
    Names(NamesFault),
}

// A fault met in reading a text, with the line of the offending byte.
#[derive(Clone, Copy, PartialEq, Eq, Debug)]
pub struct Located {
    pub line: usize,
    pub fault: Fault,
}

impl From<ReaderFault> for Fault {
    ghost from_gives = { λ e r. r ≡ Reader e };

    fn from(e: ReaderFault) -> Fault {
        Fault::Reader(e)
    }
}

impl From<SheetFault> for Fault {
    ghost from_gives = { λ e r. r ≡ Sheet e };

    fn from(e: SheetFault) -> Fault {
        Fault::Sheet(e)
    }
}

impl Fault {
    // The refusal number that users see.
    pub fn number(self) -> u8
        ensures { result ≡ number_of self }
    {
        match self {
            Fault::Reader(ReaderFault::TextTooLong) => 1,
            Fault::Reader(ReaderFault::HeaderForm) => 2,
            Fault::Reader(ReaderFault::MalformedNumber) => 3,
            Fault::Reader(ReaderFault::HeaderLimit) => 4,
            Fault::Reader(ReaderFault::ClauseCount) => 5,
            Fault::Sheet(SheetFault::NoSuchVariable) => 6,
            Fault::Sheet(SheetFault::TooManyLiterals) => 7,
            Fault::Sheet(SheetFault::StoreFull) => 8,
            Fault::Sheet(SheetFault::Contradictory) => 9,
            Fault::Sheet(SheetFault::TooManyNets) => 10,
            Fault::Sheet(SheetFault::Radius) => 11,
            Fault::Sheet(SheetFault::Capacity) => 12,
            Fault::Sheet(SheetFault::SpaceShort) => 16,
            Fault::Solver(SolverFault::BadSearch) => 13,
            Fault::Solver(SolverFault::NothingKept) => 14,
            Fault::Solver(SolverFault::NoVariable) => 15,
            Fault::Names(NamesFault::NoName) => 17,
        }
    }

    // The part that raised it.
    pub fn part(self) -> Part
        ensures { result ≡ part_of self }
    {
        match self {
            Fault::Reader(_) => Part::OfReader,
            Fault::Sheet(_) => Part::OfSheet,
            Fault::Solver(_) => Part::OfSolver,
            Fault::Names(_) => Part::OfNames,
        }
    }
}
