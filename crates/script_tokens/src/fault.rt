//! Faults of a text of lines.
ghost use Rattle.std.specs.Prelude.{◌≡◌};
ghost use Rattle.sf_base.specs.declared.memory.Failure.TheVariants.{Fault};
ghost use Rattle.script_tokens.specs.Faults.{number_of, name_of, line_of};
ghost use Rattle.script_tokens.specs.Pool.{on_line};

use sf_base::Failure;
use thiserror::Error;

/// The fault of a line.
#[derive(Debug, Drop, Clone, Copy, PartialEq, Eq)]
pub enum LineFault {
    /// A token is missing or superfluous, a word is wrong, or a word is found where a literal is required.
    Syntax,
    /// A token is no number, or the number is out of range.
    Number,
    /// A literal is malformed, or its bytes are not valid here.
    Literal,
}

impl LineFault {
    /// The fault with its line number.
    pub fn on_line(self, number: u64) -> ScriptFault
        ensures { result ≡ on_line number self }
    {
        match self {
            LineFault::Syntax => ScriptFault::Syntax(number),
            LineFault::Number => ScriptFault::Number(number),
            LineFault::Literal => ScriptFault::Literal(number),
        }
    }
}

/// The first fault of a text, such as a script, with its line number, counted from 1.
#[derive(Debug, Drop, Clone, Copy, PartialEq, Eq, Error)]
pub enum ScriptFault {
    /// 41: a token is missing or superfluous, a word is wrong, or a word is found where a literal is required.
    #[error("line {0}: a token is wrong, missing or left over")]
    Syntax(u64),
    /// 42: a token is no number, or the number is out of range.
    #[error("line {0}: a number is wrong or out of range")]
    Number(u64),
    /// 43: a literal is malformed, or its bytes are not valid here.
    #[error("line {0}: a literal is malformed, or its bytes are not allowed there")]
    Literal(u64),
}

impl ScriptFault {
    /// The fault's number, from 41 to 43.
    pub fn number(self) -> u8
        ensures { result ≡ number_of self }
    {
        match self {
            ScriptFault::Syntax(_) => 41,
            ScriptFault::Number(_) => 42,
            ScriptFault::Literal(_) => 43,
        }
    }

    /// The fault's name, as it is printed after its number.
    pub fn name(self) -> &'static str
        ensures { result.now ≡ name_of self }
    {
        match self {
            ScriptFault::Syntax(_) => "Syntax",
            ScriptFault::Number(_) => "Number",
            ScriptFault::Literal(_) => "Literal",
        }
    }

    /// The number of the faulty line, counted from 1.
    pub fn line(self) -> u64
        ensures { result ≡ line_of self }
    {
        match self {
            ScriptFault::Syntax(line) | ScriptFault::Number(line) | ScriptFault::Literal(line) => {
                line
            }
        }
    }
}

impl From<LineFault> for Failure<LineFault> {
    ghost from_gives = { λ fault failure. failure ≡ Fault fault };

    fn from(fault: LineFault) -> Failure<LineFault> {
        Failure::Fault(fault)
    }
}

impl From<ScriptFault> for Failure<ScriptFault> {
    ghost from_gives = { λ fault failure. failure ≡ Fault fault };

    fn from(fault: ScriptFault) -> Failure<ScriptFault> {
        Failure::Fault(fault)
    }
}
