//! The command `script`.
ghost use Rattle.program_commands.specs.declared.words.Request.TheVariants.{Script};
ghost use Rattle.std.specs.Prelude.{◌≡◌};
ghost use Rattle.sfbank.specs.BankScripts.{script_outcome};
ghost use Rattle.sfbank.specs.PlanParts.{form_of, points_of, with_text};
ghost use Rattle.sfbank.specs.Ends.{EndsFor};
ghost use Rattle.sfbank.specs.Meanings.{Means};

use super::checks::reject_bank;
use super::inputs::read_input;
use super::outputs::put;
use crate::reading::read_bank;
use crate::script::{FormedScript, ScriptForm};
use file_host::Host;
use program_commands::ScriptPaths;
use program_reports::{Fault, KnowsError, RunFault};
use script_of_bank::SamplePoints;
use sf_base::OutOfMemory;
use std::alloc::Global;
use std::io::Write;

/// Writes the script of a bank. The bank is read whole first, so with `force` the output may be its own file.
pub(crate) fn script<'a, H: Host, O: Write + KnowsError>(
    host: &mut H,
    alloc: Global,
    paths: ScriptPaths<'a>,
    output: &mut O,
) -> Result<(), Fault<'a>>
    ensures { Means (Script paths.entry)
        (record { files = H.world host.old; printed = O.contents output.old })
        (record { files = H.world host.new; printed = O.contents output.new }) (H.written host.new) result }
{
    match reject_bank(host, paths.out, paths.force) {
        Ok(()) => match read_input(host, alloc, paths.input) {
            Ok(file) => put_script(host, alloc, paths, file.as_slice(), output),
            Err(fault) => Err(fault),
        },
        Err(fault) => Err(fault),
    }
}

fn put_script<'a, H: Host, O: Write + KnowsError>(
    host: &mut H,
    alloc: Global,
    paths: ScriptPaths<'a>,
    file: &[u8],
    output: &mut O,
) -> Result<(), Fault<'a>>
    ensures { EndsFor (λ w. with_text w paths.entry.out.now (script_outcome (form_of paths.entry) file.now))
        (record { files = H.world host.old; printed = O.contents output.old })
        (record { files = H.world host.new; printed = O.contents output.new }) (H.written host.new) result }
{
    match read_bank(alloc, file) {
        Ok((bank, _counts)) => match FormedScript::of(alloc, &bank, form_of(paths)) {
            Ok(script) => put(host, paths.out, &script, output),
            Err(OutOfMemory) => Err(Fault::Run(RunFault::Memory, paths.out)),
        },
        Err(fault) => Err(Fault::Run(fault, paths.out)),
    }
}

fn form_of(paths: ScriptPaths<'_>) -> ScriptForm
    ensures { result ≡ form_of paths.entry }
{
    ScriptForm {
        points: points_of(paths.no_points),
        comments: !paths.no_comments,
    }
}

fn points_of(left_out: bool) -> SamplePoints
    ensures { result ≡ points_of left_out }
{
    if left_out {
        SamplePoints::LeftOut
    } else {
        SamplePoints::Kept
    }
}
