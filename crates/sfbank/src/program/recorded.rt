//! What the commands that bring a recording into a bank have in common.
ghost use Rattle.std.specs.Prelude.{Option, List, ℕ};
ghost use Rattle.program_commands.specs.declared.words.Request.{Request};
ghost use Rattle.sfbank.specs.Recordings.{change_of, recording_outcome};
ghost use Rattle.sfbank.specs.PlanParts.{with_both};
ghost use Rattle.sfbank.specs.Ends.{EndsFor};
ghost use Rattle.sfbank.specs.Meanings.{MeansPlan};
ghost use Rattle.sfbank.specs.RecordingPlans.{RecordsBy};

use super::checks::{EditPaths, reject_outputs};
use super::inputs::read_two;
use super::outputs::save_both;
use crate::recorded::{Destination, apply_recording, read_recorded_in_place};
use file_host::Host;
use program_reports::Fault;
use std::alloc::Global;
use wave_file::ReadOptions;

/// A recording, the bank that it is brought into, and where to.
#[derive(Clone, Copy)]
pub(super) struct RecordingWork<'a, 'n> {
    pub(super) paths: EditPaths<'a>,
    pub(super) options: ReadOptions,
    pub(super) destination: Destination<'n>,
}

/// Brings the recording into the bank. Both files are read whole first, so OUT may be the bank's own file.
pub(super) fn record<'a, H: Host>(
    host: &mut H,
    alloc: Global,
    work: RecordingWork<'a, '_>,
) -> Result<(), Fault<'a>>
    ensures { (request : Request) (printed : Option (List ℕ)) → RecordsBy work.entry request → MeansPlan request
        (record { files = H.world host.old; printed = printed })
        (record { files = H.world host.new; printed = printed }) (H.written host.new) result }
{
    match reject_outputs(host, work.paths) {
        Ok(()) => match read_two(host, alloc, work.paths.input, work.paths.other) {
            Ok((file, mut wave)) => {
                save_recorded(host, alloc, work, file.as_slice(), wave.as_mut_slice())
            }
            Err(fault) => Err(fault),
        },
        Err(fault) => Err(fault),
    }
}

// Saves the bank with the recording, and the undo script. The WAVE file's memory is written over.
fn save_recorded<'a, H: Host>(
    host: &mut H,
    alloc: Global,
    work: RecordingWork<'a, '_>,
    file: &[u8],
    wave: &mut [u8],
) -> Result<(), Fault<'a>>
    ensures { (printed : Option (List ℕ)) → EndsFor (λ w. with_both work.entry.paths.out.now work.entry.paths.undo.now
        (recording_outcome (change_of work.entry.destination) work.entry.options file.now wave.old))
        (record { files = H.world host.old; printed = printed })
        (record { files = H.world host.new; printed = printed }) (H.written host.new) result }
{
    let EditPaths { out, undo, .. } = work.paths;
    match read_recorded_in_place(alloc, file, wave, work.options) {
        Ok((bank, recording, sides)) => {
            match apply_recording(alloc, bank, work.destination, recording, &sides) {
                Ok(edited_bank) => save_both(host, out, undo, &edited_bank),
                Err(fault) => Err(Fault::Run(fault, out)),
            }
        }
        Err(fault) => Err(Fault::Run(fault, out)),
    }
}
