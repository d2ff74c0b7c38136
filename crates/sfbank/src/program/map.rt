//! The command `map`.
ghost use Rattle.program_commands.specs.declared.words.Request.TheVariants.{Map};
ghost use Rattle.sfbank.specs.Maps.{map_outcome};
ghost use Rattle.sfbank.specs.PlanParts.{with_text};
ghost use Rattle.sfbank.specs.Ends.{EndsFor};
ghost use Rattle.sfbank.specs.Meanings.{Means};

use super::checks::reject_bank;
use super::inputs::read_input;
use super::outputs::put;
use crate::map::{Drawing, read_drawn};
use file_host::Host;
use program_commands::MapPaths;
use program_reports::{Fault, KnowsError};
use std::alloc::Global;
use std::io::Write;

/// Writes a drawing of a preset, an instrument or a sample. The bank is read whole first, so with `force` the output may be its
/// file.
pub(crate) fn map<'a, H: Host, O: Write + KnowsError>(
    host: &mut H,
    alloc: Global,
    paths: MapPaths<'a>,
    output: &mut O,
) -> Result<(), Fault<'a>>
    ensures { Means (Map paths.entry)
        (record { files = H.world host.old; printed = O.contents output.old })
        (record { files = H.world host.new; printed = O.contents output.new }) (H.written host.new) result }
{
    match reject_bank(host, paths.out, paths.force) {
        Ok(()) => match read_input(host, alloc, paths.input) {
            Ok(file) => put_map(host, alloc, paths, file.as_slice(), output),
            Err(fault) => Err(fault),
        },
        Err(fault) => Err(fault),
    }
}

fn put_map<'a, H: Host, O: Write + KnowsError>(
    host: &mut H,
    alloc: Global,
    paths: MapPaths<'a>,
    file: &[u8],
    output: &mut O,
) -> Result<(), Fault<'a>>
    ensures { EndsFor (λ w. with_text w paths.entry.out.now (map_outcome file.now paths.entry.drawn))
        (record { files = H.world host.old; printed = O.contents output.old })
        (record { files = H.world host.new; printed = O.contents output.new }) (H.written host.new) result }
{
    match read_drawn(alloc, file, paths.drawn) {
        Ok(bank) => {
            let drawing = Drawing {
                bank: &bank,
                drawn: paths.drawn,
            };
            put(host, paths.out, &drawing, output)
        }
        Err(fault) => Err(Fault::Run(fault, paths.out)),
    }
}
