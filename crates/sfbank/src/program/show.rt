//! The command `show`.
ghost use Rattle.std.specs.Prelude.{◌≡◌, ◌||◌, Ok};
ghost use Rattle.show_listing.specs.Details.{detailed_listing};
ghost use Rattle.program_commands.specs.declared.words.Request.TheVariants.{Show};
ghost use Rattle.sfbank.specs.PlanParts.{details_of, listing_outcome};
ghost use Rattle.sfbank.specs.Meanings.{Means};
ghost use Rattle.sfbank.specs.Outputs.{PrintsOutcome};

use super::inputs::read_input;
use super::outputs::print;
use crate::reading::read_bank;
use bank_core::Bank;
use bank_format::Counts;
use file_host::Host;
use program_commands::ShowPaths;
use program_reports::{Fault, KnowsError, RunFault, STANDARD_OUTPUT};
use show_listing::{Details, Listing};
use std::alloc::Global;
use std::io::Write;

/// Writes the listing of a bank to the standard output.
pub(crate) fn show<'a, H: Host, O: Write + KnowsError>(
    host: &mut H,
    alloc: Global,
    paths: ShowPaths<'a>,
    output: &mut O,
) -> Result<(), Fault<'a>>
    ensures { Means (Show paths.entry)
        (record { files = H.world host.old; printed = O.contents output.old })
        (record { files = H.world host.new; printed = O.contents output.new }) (H.written host.new) result }
{
    match read_input(host, alloc, paths.input) {
        Ok(file) => print_listing(alloc, paths, file.as_slice(), output),
        Err(fault) => Err(fault),
    }
}

fn print_listing<'a, O: Write + KnowsError>(
    alloc: Global,
    paths: ShowPaths<'a>,
    file: &[u8],
    output: &mut O,
) -> Result<(), Fault<'a>>
    ensures { PrintsOutcome (listing_outcome paths.entry file.now) (O.contents output.old) (O.contents output.new) result }
{
    match read_bank(alloc, file) {
        Ok((bank, counts)) => {
            if has_details(paths) {
                print_details(alloc, paths, &bank, &counts, output)
            } else {
                print(&Listing::plain(&bank, &counts), output)
            }
        }
        Err(fault) => Err(Fault::Run(fault, STANDARD_OUTPUT)),
    }
}

fn has_details(paths: ShowPaths<'_>) -> bool
    ensures { result ≡ (paths.entry.zones || paths.entry.uses) }
{
    paths.zones || paths.uses
}

fn print_details<'a, O: Write + KnowsError>(
    alloc: Global,
    paths: ShowPaths<'a>,
    bank: &Bank<'_>,
    counts: &Counts,
    output: &mut O,
) -> Result<(), Fault<'a>>
    ensures { PrintsOutcome (Ok (detailed_listing (details_of paths.entry) bank.now counts.now)) (O.contents output.old) (O.contents output.new) result }
{
    let details = Details {
        zones: paths.zones,
        uses: paths.uses,
    };
    match Listing::detailed(alloc, bank, counts, details) {
        Ok(listing) => print(&listing, output),
        Err(_) => Err(Fault::Run(RunFault::Memory, STANDARD_OUTPUT)),
    }
}
