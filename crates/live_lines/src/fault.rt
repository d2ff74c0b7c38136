//! The fault of a line.
ghost use Rattle.std.specs.Prelude.{◌≡◌};
ghost use Rattle.sf_base.specs.declared.memory.Failure.TheVariants.{Fault};
ghost use Rattle.live_lines.specs.Faults.{number_of, name_of, of_line};

use script_tokens::LineFault;
use sf_base::Failure;
use thiserror::Error;

/// The fault of a line of a live session.
#[derive(Debug, Drop, Clone, Copy, PartialEq, Eq, Error)]
pub enum RequestFault {
    /// 41: a token is missing or unexpected, or a word is wrong.
    #[error("a token is wrong, missing or left over")]
    Syntax,
    /// 42: not a number, or a number out of its range.
    #[error("a number is wrong or out of range")]
    Number,
    /// 43: a malformed literal, or one whose bytes don't fit.
    #[error("a literal is malformed, or its bytes are not allowed there")]
    Literal,
    /// 45: `note` is not followed by five numbers in their ranges.
    #[error("this is no note")]
    BadNote,
    /// 47: the note is longer than 100,000,000 frames.
    #[error("the note is too long")]
    TooLong,
}

impl RequestFault {
    /// The number of the fault, from 41 to 47.
    pub fn number(self) -> u8
        ensures { result ≡ number_of self }
    {
        match self {
            RequestFault::Syntax => 41,
            RequestFault::Number => 42,
            RequestFault::Literal => 43,
            RequestFault::BadNote => 45,
            RequestFault::TooLong => 47,
        }
    }

    /// The name of the fault, as it is printed after its number.
    pub fn name(self) -> &'static str
        ensures { result.now ≡ name_of self }
    {
        match self {
            RequestFault::Syntax => "Syntax",
            RequestFault::Number => "Number",
            RequestFault::Literal => "Literal",
            RequestFault::BadNote => "BadNote",
            RequestFault::TooLong => "TooLong",
        }
    }
}

impl From<LineFault> for RequestFault {
    ghost from_gives = { λ fault made_request. made_request ≡ of_line fault };

    fn from(fault: LineFault) -> RequestFault {
        match fault {
            LineFault::Syntax => RequestFault::Syntax,
            LineFault::Number => RequestFault::Number,
            LineFault::Literal => RequestFault::Literal,
        }
    }
}

impl From<RequestFault> for Failure<RequestFault> {
    ghost from_gives = { λ fault failure. failure ≡ Fault fault };

    fn from(fault: RequestFault) -> Failure<RequestFault> {
        Failure::Fault(fault)
    }
}
