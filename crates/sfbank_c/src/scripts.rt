//! Runs scripts on sessions.
ghost use Rattle.std.specs.Prelude.{◌≡◌, OnOk, IfErr};
ghost use Rattle.inverse_edits.specs.Histories.{IsEdited, IsRefusalNow};
ghost use Rattle.script_tokens.specs.Pool.{pool_bytes};
ghost use Rattle.sfbank_c.specs.Scripts.{RunsLines, RunsScript, ChecksPool, stop_number, stop_line};

use crate::status::{BAD_POOL, OUT_OF_MEMORY};
use edit_refusals::Refusal;
use edit_script::{Line, ScriptFault, parse, pool_of};
use inverse_edits::Session;
use sf_base::Failure;
use std::alloc::Global;

/// A line whose edit is refused.
#[derive(Clone, Copy)]
pub struct RefusedLine {
    pub number: u64,
    pub why: Refusal,
}

/// Why a script stops.
#[derive(Clone, Copy)]
pub enum ScriptStop {
    /// Another pool is given than that of the script.
    BadPool,
    Fault(ScriptFault),
    /// An allocation failed before the first edit.
    OutOfMemory,
    /// The edits before this line are done.
    Refused(RefusedLine),
}

impl ScriptStop {
    /// The number of the error.
    pub(crate) fn number(self) -> i32
        ensures { result ≡ stop_number self }
    {
        match self {
            ScriptStop::BadPool => BAD_POOL,
            ScriptStop::Fault(fault) => i32::from(fault.number()),
            ScriptStop::OutOfMemory => OUT_OF_MEMORY,
            ScriptStop::Refused(line) => i32::from(line.why.number()),
        }
    }

    /// The number of the line, counted from 1, or 0.
    pub(crate) fn line(self) -> u64
        ensures { result ≡ stop_line self }
    {
        match self {
            ScriptStop::Fault(fault) => fault.line(),
            ScriptStop::Refused(line) => line.number,
            ScriptStop::BadPool | ScriptStop::OutOfMemory => 0,
        }
    }
}

/// Runs a script on a session, up to the first edit that is refused. `pool` must hold the script's literals.
pub(crate) fn run_script<'a>(
    alloc: Global,
    session: &mut Session<'a>,
    script: &[u8],
    pool: &'a [u8],
) -> Result<(), ScriptStop>
    ensures { RunsScript session.old session.new script.now pool.now result }
{
    match check_pool(alloc, script, pool) {
        Ok(()) => {}
        Err(stop) => return Err(stop),
    }
    match parse(alloc, script, pool) {
        Ok(lines) => match run_lines(alloc, session, lines) {
            Ok(()) => Ok(()),
            Err(line) => Err(ScriptStop::Refused(line)),
        },
        Err(Failure::Fault(fault)) => Err(ScriptStop::Fault(fault)),
        Err(Failure::OutOfMemory) => Err(ScriptStop::OutOfMemory),
    }
}

// Checks that these are the bytes of the script's literals.
fn check_pool(alloc: Global, script: &[u8], pool: &[u8]) -> Result<(), ScriptStop>
    ensures { ChecksPool script.now pool.now result }
{
    match pool_of(alloc, script) {
        Ok(own) => {
            if own.as_slice() == pool {
                Ok(())
            } else {
                Err(ScriptStop::BadPool)
            }
        }
        Err(Failure::Fault(fault)) => Err(ScriptStop::Fault(fault)),
        Err(Failure::OutOfMemory) => Err(ScriptStop::OutOfMemory),
    }
}

// Does the edits of lines in turn, up to the first that is refused.
fn run_lines<'a>(
    alloc: Global,
    session: &mut Session<'a>,
    lines: Vec<Line<'a>>,
) -> Result<(), RefusedLine>
    ensures { RunsLines session.old session.new lines.entry.items result }
{
    for line in lines {
        run_line(alloc, session, line)?;
    }
    Ok(())
}

// Does the edit of a line. A function of its own, so that the loop drops no edit.
fn run_line<'a>(alloc: Global, session: &mut Session<'a>, line: Line<'a>) -> Result<(), RefusedLine>
    ensures done { OnOk result (IsEdited session.old session.new line.entry.edit) }
    ensures unchanged { IfErr result (λ _. session.new ≡ session.old) }
    ensures refused { IfErr result (λ stop. IsRefusalNow session.old line.entry.edit stop.why) }
    ensures number { IfErr result (λ stop. stop.number ≡ line.entry.number) }
{
    let number = line.number;
    match session.edit(alloc, line.into_edit()) {
        Ok(()) => Ok(()),
        Err((why, _edit)) => Err(RefusedLine { number, why }),
    }
}
