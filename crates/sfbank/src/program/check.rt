//! The command `check`.
ghost use Rattle.std.specs.Prelude.{ℕ, Option};
ghost use Rattle.file_host.specs.World.{World};
ghost use Rattle.program_commands.specs.declared.words.Request.TheVariants.{Check};
ghost use Rattle.sfbank.specs.FolderPlans.{bank_outcome};
ghost use Rattle.sfbank.specs.PlanParts.{with_findings};
ghost use Rattle.sfbank.specs.Ends.{EndsFor};
ghost use Rattle.sfbank.specs.Meanings.{Means};

use super::inputs::read_input;
use super::outputs::print;
use crate::check::read_checked;
use file_host::Host;
use program_commands::CheckPaths;
use program_reports::{Fault, KnowsError, STANDARD_OUTPUT};
use std::alloc::Global;
use std::io::Write;

/// Writes the findings of a bank to the standard output. With `strict` they are a fault of its file.
pub(crate) fn check<'a, H: Host, O: Write + KnowsError>(
    host: &mut H,
    alloc: Global,
    paths: CheckPaths<'a>,
    output: &mut O,
) -> Result<(), Fault<'a>>
    ensures { Means (Check paths.entry)
        (record { files = H.world host.old; printed = O.contents output.old })
        (record { files = H.world host.new; printed = O.contents output.new }) (H.written host.new) result }
{
    match read_input(host, alloc, paths.input) {
        Ok(file) => print_findings(alloc, paths, file.as_slice(), output),
        Err(fault) => Err(fault),
    }
}

fn print_findings<'a, O: Write + KnowsError>(
    alloc: Global,
    paths: CheckPaths<'a>,
    file: &[u8],
    output: &mut O,
) -> Result<(), Fault<'a>>
    ensures { (files : Option World) → (written : ℕ) → EndsFor (λ w. with_findings paths.entry (bank_outcome file.now))
        (record { files = files; printed = O.contents output.old })
        (record { files = files; printed = O.contents output.new }) written result }
{
    match read_checked(alloc, file) {
        Ok(checked) => match print(&checked.lines(), output) {
            Ok(()) if paths.strict && !checked.is_clean() => Err(Fault::HasFindings(paths.input)),
            Ok(()) => Ok(()),
            Err(fault) => Err(fault),
        },
        Err(fault) => Err(Fault::Run(fault, STANDARD_OUTPUT)),
    }
}
