//! Faults of a note list.
ghost use Rattle.std.specs.Prelude.{◌≡◌};
ghost use Rattle.sf_base.specs.declared.memory.Failure.TheVariants.{Fault};
ghost use Rattle.script_notes.specs.Faults.{number_of, name_of, line_of};

use sf_base::Failure;
use thiserror::Error;

/// The first fault of a note list, with its line number, counted from 1.
#[derive(Debug, Drop, Clone, Copy, PartialEq, Eq, Error)]
pub enum NoteFault {
    /// 45: a line with tokens is not six numbers in their ranges.
    #[error("line {0}: this is no note")]
    BadNote(u64),
    /// 46: the list has 65,535 notes before this one.
    #[error("line {0}: there are too many notes")]
    TooManyNotes(u64),
    /// 47: the note ends after frame 100,000,000.
    #[error("line {0}: the note ends too late")]
    TooLong(u64),
}

impl NoteFault {
    /// The fault's number, from 45 to 47.
    pub fn number(self) -> u8
        ensures { result ≡ number_of self }
    {
        match self {
            NoteFault::BadNote(_) => 45,
            NoteFault::TooManyNotes(_) => 46,
            NoteFault::TooLong(_) => 47,
        }
    }

    /// The fault's name, as it is printed after its number.
    pub fn name(self) -> &'static str
        ensures { result.now ≡ name_of self }
    {
        match self {
            NoteFault::BadNote(_) => "BadNote",
            NoteFault::TooManyNotes(_) => "TooManyNotes",
            NoteFault::TooLong(_) => "TooLong",
        }
    }

    /// The number of the faulty line, counted from 1.
    pub fn line(self) -> u64
        ensures { result ≡ line_of self }
    {
        match self {
            NoteFault::BadNote(line) | NoteFault::TooManyNotes(line) | NoteFault::TooLong(line) => {
                line
            }
        }
    }
}

impl From<NoteFault> for Failure<NoteFault> {
    ghost from_gives = { λ fault failure. failure ≡ Fault fault };

    fn from(fault: NoteFault) -> Failure<NoteFault> {
        Failure::Fault(fault)
    }
}
