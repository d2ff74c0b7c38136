//! Faults of a table.
ghost use Rattle.std.specs.Prelude.{◌≡◌};
ghost use Rattle.sf_base.specs.declared.memory.Failure.TheVariants.{Fault};
ghost use Rattle.kit_tables.specs.Faults.{number_of, name_of, line_of};

use sf_base::Failure;
use thiserror::Error;

/// The first fault of a table, with its line number, counted from 1.
#[derive(Debug, Drop, Clone, Copy, PartialEq, Eq, Error)]
pub enum KitFault {
    /// 75: a line with tokens is no file with its zone.
    #[error("line {0}: this is no file with its zone")]
    BadRow(u64),
    /// 76: the table has 65,535 files before this one.
    #[error("line {0}: there are too many files")]
    TooManyRows(u64),
    /// 77: no line names a file; the line is 1.
    #[error("line {0}: the table names no file")]
    NoRows(u64),
}

impl KitFault {
    /// The fault's number, from 75 to 77.
    pub fn number(self) -> u8
        ensures { result ≡ number_of self }
    {
        match self {
            KitFault::BadRow(_) => 75,
            KitFault::TooManyRows(_) => 76,
            KitFault::NoRows(_) => 77,
        }
    }

    /// The fault's name, as it is printed after its number.
    pub fn name(self) -> &'static str
        ensures { result.now ≡ name_of self }
    {
        match self {
            KitFault::BadRow(_) => "BadRow",
            KitFault::TooManyRows(_) => "TooManyRows",
            KitFault::NoRows(_) => "NoRows",
        }
    }

    /// The number of the faulty line, counted from 1.
    pub fn line(self) -> u64
        ensures { result ≡ line_of self }
    {
        match self {
            KitFault::BadRow(line) | KitFault::TooManyRows(line) | KitFault::NoRows(line) => line,
        }
    }
}

impl From<KitFault> for Failure<KitFault> {
    ghost from_gives = { λ fault failure. failure ≡ Fault fault };

    fn from(fault: KitFault) -> Failure<KitFault> {
        Failure::Fault(fault)
    }
}
