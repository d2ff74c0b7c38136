//! The command `keep`.
ghost use Rattle.std.specs.Prelude.{List, ℕ, Ok};
ghost use Rattle.bank_format.specs.ReadChecks.{fault_of};
ghost use Rattle.program_commands.specs.declared.plans.Kept.TheVariants as kept;
ghost use Rattle.program_commands.specs.declared.words.Request.TheVariants as request;
ghost use Rattle.sfbank.specs.Outcome.{after_reading, bank_in};
ghost use Rattle.sfbank.specs.Purposes.{keeping_listed, keeping_of, keeping_played};
ghost use Rattle.sfbank.specs.PlanParts.{edits_at, with_edits};
ghost use Rattle.sfbank.specs.Ends.{EndsFor};
ghost use Rattle.sfbank.specs.Meanings.{Means};
ghost use Rattle.sfbank.specs.Steps.{IsReadAs};

use super::checks::{reject_outputs_of_plan, reject_undo_of_plan};
use super::inputs::{read_input, read_two};
use super::planned::put_edits;
use crate::played_notes::{presets_of, read_to_keep};
use crate::reading::read_bank;
use bank_core::Bank;
use file_host::Host;
use plan_edits::{Keep, KeepPlayed, PresetNumbers, check_presets};
use program_commands::{KeepPaths, Kept, PlanPaths, Zones};
use program_hints::Remarks;
use program_reports::{Fault, KnowsError, RunFault, remark_on_run};
use script_notes::Note;
use std::alloc::Global;
use std::io::Write;

/// Keeps some presets of a bank, and removes what they don't need. All inputs are read whole first, so OUT may be the
/// bank's own file. Remarks on a fault are added to `remarks`.
pub(crate) fn keep<'a, H: Host, O: Write + KnowsError>(
    host: &mut H,
    alloc: Global,
    keep: KeepPaths<'a>,
    output: &mut O,
    remarks: &mut Remarks,
) -> Result<(), Fault<'a>>
    ensures { Means (request.Keep keep.entry)
        (record { files = H.world host.old; printed = O.contents output.old })
        (record { files = H.world host.new; printed = O.contents output.new }) (H.written host.new) result }
{
    let KeepPaths { paths, kept } = keep;
    match kept {
        Kept::Notes(notes, zones) => keep_played(host, alloc, paths, notes, zones, output, remarks),
        Kept::Presets(presets) => keep_listed(host, alloc, paths, presets, output),
    }
}

// Keeps the presets with these numbers.
fn keep_listed<'a, H: Host, O: Write + KnowsError>(
    host: &mut H,
    alloc: Global,
    paths: PlanPaths<'a>,
    presets: Vec<PresetNumbers>,
    output: &mut O,
) -> Result<(), Fault<'a>>
    ensures { Means (request.Keep (record { paths = paths.entry; kept = kept.Presets presets }))
        (record { files = H.world host.old; printed = O.contents output.old })
        (record { files = H.world host.new; printed = O.contents output.new }) (H.written host.new) result }
{
    match reject_undo_of_plan(host, paths) {
        Ok(()) => match read_input(host, alloc, paths.input) {
            Ok(file) => put_listed(
                host,
                alloc,
                paths,
                file.as_slice(),
                presets.as_slice(),
                output,
            ),
            Err(fault) => Err(fault),
        },
        Err(fault) => Err(fault),
    }
}

fn put_listed<'a, H: Host, O: Write + KnowsError>(
    host: &mut H,
    alloc: Global,
    paths: PlanPaths<'a>,
    file: &[u8],
    presets: &[PresetNumbers],
    output: &mut O,
) -> Result<(), Fault<'a>>
    ensures { EndsFor (λ w. with_edits paths.entry file.now (after_reading (fault_of file.now) (keeping_listed (bank_in file.now) presets.now)))
        (record { files = H.world host.old; printed = O.contents output.old })
        (record { files = H.world host.new; printed = O.contents output.new }) (H.written host.new) result }
{
    match read_bank(alloc, file) {
        Ok((bank, _counts)) => match check_presets(&bank, presets) {
            Ok(()) => put_edits(host, alloc, paths, bank, &Keep { presets }, output),
            Err(fault) => Err(Fault::Run(RunFault::Presets(fault), paths.out)),
        },
        Err(fault) => Err(Fault::Run(fault, paths.out)),
    }
}

// Keeps what the notes of a file play.
fn keep_played<'a, H: Host, O: Write + KnowsError>(
    host: &mut H,
    alloc: Global,
    paths: PlanPaths<'a>,
    notes: &'a str,
    zones: Zones,
    output: &mut O,
    remarks: &mut Remarks,
) -> Result<(), Fault<'a>>
    ensures { Means (request.Keep (record { paths = paths.entry; kept = kept.Notes notes.entry zones }))
        (record { files = H.world host.old; printed = O.contents output.old })
        (record { files = H.world host.new; printed = O.contents output.new }) (H.written host.new) result }
{
    match reject_outputs_of_plan(host, paths, notes) {
        Ok(()) => match read_two(host, alloc, paths.input, notes) {
            Ok((file, text)) => put_played(
                host,
                alloc,
                paths,
                file.as_slice(),
                text.as_slice(),
                zones,
                output,
                remarks,
            ),
            Err(fault) => Err(fault),
        },
        Err(fault) => Err(fault),
    }
}

fn put_played<'a, H: Host, O: Write + KnowsError>(
    host: &mut H,
    alloc: Global,
    paths: PlanPaths<'a>,
    file: &[u8],
    text: &[u8],
    zones: Zones,
    output: &mut O,
    remarks: &mut Remarks,
) -> Result<(), Fault<'a>>
    ensures { EndsFor (λ w. with_edits paths.entry file.now (keeping_played zones file.now text.now))
        (record { files = H.world host.old; printed = O.contents output.old })
        (record { files = H.world host.new; printed = O.contents output.new }) (H.written host.new) result }
{
    match read_to_keep(alloc, file, text) {
        Ok((bank, notes)) => put_notes(host, alloc, paths, bank, notes.as_slice(), zones, output),
        Err(fault) => {
            remark_on_run(alloc, text, &fault, remarks);
            Err(Fault::Run(fault, paths.out))
        }
    }
}

// Keeps what notes play of a bank.
fn put_notes<'a, H: Host, O: Write + KnowsError>(
    host: &mut H,
    alloc: Global,
    paths: PlanPaths<'a>,
    bank: Bank<'_>,
    notes: &[Note],
    zones: Zones,
    output: &mut O,
) -> Result<(), Fault<'a>>
    ensures { (file : List ℕ) → IsReadAs file bank.entry
        → EndsFor (λ w. Ok (edits_at paths.entry (keeping_of zones notes.now) file))
        (record { files = H.world host.old; printed = O.contents output.old })
        (record { files = H.world host.new; printed = O.contents output.new }) (H.written host.new) result }
{
    match zones {
        Zones::All => match presets_of(alloc, notes) {
            Ok(presets) => {
                let plan = Keep {
                    presets: presets.as_slice(),
                };
                put_edits(host, alloc, paths, bank, &plan, output)
            }
            Err(_) => Err(Fault::Run(RunFault::Memory, paths.out)),
        },
        Zones::Played => put_edits(host, alloc, paths, bank, &KeepPlayed { notes }, output),
    }
}
