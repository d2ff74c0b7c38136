//! The command `play`.
ghost use Rattle.program_commands.specs.declared.words.Request.TheVariants.{Play};
ghost use Rattle.sfbank.specs.Outcome.{play_outcome};
ghost use Rattle.sfbank.specs.PlanParts.{with_text};
ghost use Rattle.sfbank.specs.Ends.{EndsFor};
ghost use Rattle.sfbank.specs.Meanings.{Means};
ghost use Rattle.sfbank.specs.Steps.{Passes, play_part};

use super::checks::{reject_other_bank, reject_same_file};
use super::inputs::read_two;
use super::outputs::put;
use crate::play::render_notes;
use base_progress::Progress;
use file_host::Host;
use program_commands::PlayPaths;
use program_hints::Remarks;
use program_reports::{Fault, KnowsError, remark_on_run};
use std::alloc::Global;
use std::io::Write;
use wave_file::WaveFile;

/// Renders the notes on the bank as a WAVE file. Both files are read whole first, so the output may be the bank's file.
/// Remarks on a fault are added to `remarks`.
pub(crate) fn play<'a, H: Host, O: Write + KnowsError, P: Progress>(
    host: &mut H,
    alloc: Global,
    paths: PlayPaths<'a>,
    output: &mut O,
    remarks: &mut Remarks,
    progress: &mut P,
) -> Result<(), Fault<'a>>
    ensures { Means (Play paths.entry)
        (record { files = H.world host.old; printed = O.contents output.old })
        (record { files = H.world host.new; printed = O.contents output.new }) (H.written host.new) result }
{
    match reject_output(host, paths) {
        Ok(()) => match read_two(host, alloc, paths.input, paths.notes) {
            Ok((file, notes)) => put_sound(
                host,
                alloc,
                paths.out,
                file.as_slice(),
                notes.as_slice(),
                output,
                remarks,
                progress,
            ),
            Err(fault) => Err(fault),
        },
        Err(fault) => Err(fault),
    }
}

fn reject_output<'a, H: Host>(host: &mut H, paths: PlayPaths<'a>) -> Result<(), Fault<'a>>
    ensures { Passes (play_part paths.entry) (H.world host.old) (H.world host.new) result }
{
    match reject_same_file(host, paths.out, &[paths.notes]) {
        Ok(()) => reject_other_bank(host, paths.out, paths.input, paths.force),
        Err(fault) => Err(fault),
    }
}

fn put_sound<'a, H: Host, O: Write + KnowsError, P: Progress>(
    host: &mut H,
    alloc: Global,
    path: &'a str,
    file: &[u8],
    notes: &[u8],
    output: &mut O,
    remarks: &mut Remarks,
    progress: &mut P,
) -> Result<(), Fault<'a>>
    ensures { EndsFor (λ w. with_text w path.entry.now (play_outcome file.now notes.now))
        (record { files = H.world host.old; printed = O.contents output.old })
        (record { files = H.world host.new; printed = O.contents output.new }) (H.written host.new) result }
{
    match render_notes(alloc, file, notes, progress) {
        Ok(frames) => {
            let ended = put(host, path, &WaveFile::new(frames.as_slice()), output);
            report_sound(&ended, progress);
            ended
        }
        Err(fault) => {
            remark_on_run(alloc, notes, &fault, remarks);
            Err(Fault::Run(fault, path))
        }
    }
}

// Reports what was measured of the sound, if it is written.
fn report_sound<P: Progress>(ended: &Result<(), Fault<'_>>, progress: &mut P) {
    if ended.is_ok() {
        progress.report_sound();
    }
}
