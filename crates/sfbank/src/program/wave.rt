//! The command `wave`.
ghost use Rattle.program_commands.specs.declared.words.Request.TheVariants.{Wave};
ghost use Rattle.sfbank.specs.Recordings.{pair_outcome, wave_outcome};
ghost use Rattle.sfbank.specs.PlanParts.{export_outcome, with_text};
ghost use Rattle.sfbank.specs.Ends.{EndsFor};
ghost use Rattle.sfbank.specs.Meanings.{Means};

use super::checks::reject_bank;
use super::inputs::read_input;
use super::outputs::put;
use crate::reading::read_bank;
use crate::wave::pair_to_write;
use edit_refusals::Cause;
use file_host::Host;
use pair_waves::PairWave;
use program_commands::WavePaths;
use program_reports::{Fault, KnowsError, RunFault};
use std::alloc::Global;
use std::io::Write;
use wave_file::SampleWave;

/// Writes a sample of the bank, or the pair of which it is one, as a WAVE file. The bank is read whole first, so with `force` the output may be its
/// file.
pub(crate) fn wave<'a, H: Host, O: Write + KnowsError>(
    host: &mut H,
    alloc: Global,
    paths: WavePaths<'a>,
    output: &mut O,
) -> Result<(), Fault<'a>>
    ensures { Means (Wave paths.entry)
        (record { files = H.world host.old; printed = O.contents output.old })
        (record { files = H.world host.new; printed = O.contents output.new }) (H.written host.new) result }
{
    match reject_bank(host, paths.out, paths.force) {
        Ok(()) => match read_input(host, alloc, paths.input) {
            Ok(file) => put_wave(host, alloc, paths, file.as_slice(), output),
            Err(fault) => Err(fault),
        },
        Err(fault) => Err(fault),
    }
}

fn put_wave<'a, H: Host, O: Write + KnowsError>(
    host: &mut H,
    alloc: Global,
    paths: WavePaths<'a>,
    file: &[u8],
    output: &mut O,
) -> Result<(), Fault<'a>>
    ensures { EndsFor (λ w. with_text w paths.entry.out.now (export_outcome paths.entry file.now))
        (record { files = H.world host.old; printed = O.contents output.old })
        (record { files = H.world host.new; printed = O.contents output.new }) (H.written host.new) result }
{
    if paths.pair {
        put_pair(host, alloc, paths, file, output)
    } else {
        put_sample(host, alloc, paths, file, output)
    }
}

fn put_sample<'a, H: Host, O: Write + KnowsError>(
    host: &mut H,
    alloc: Global,
    paths: WavePaths<'a>,
    file: &[u8],
    output: &mut O,
) -> Result<(), Fault<'a>>
    ensures { EndsFor (λ w. with_text w paths.entry.out.now (wave_outcome file.now paths.entry.sample))
        (record { files = H.world host.old; printed = O.contents output.old })
        (record { files = H.world host.new; printed = O.contents output.new }) (H.written host.new) result }
{
    match read_bank(alloc, file) {
        Ok((bank, _counts)) => {
            bank.soundness();
            match bank.sample(paths.sample) {
                Some(found) => put(host, paths.out, &SampleWave::new(found), output),
                None => Err(Fault::Run(RunFault::NoMember(Cause::NoSuchSample), paths.out)),
            }
        }
        Err(fault) => Err(Fault::Run(fault, paths.out)),
    }
}

fn put_pair<'a, H: Host, O: Write + KnowsError>(
    host: &mut H,
    alloc: Global,
    paths: WavePaths<'a>,
    file: &[u8],
    output: &mut O,
) -> Result<(), Fault<'a>>
    ensures { EndsFor (λ w. with_text w paths.entry.out.now (pair_outcome file.now paths.entry.sample))
        (record { files = H.world host.old; printed = O.contents output.old })
        (record { files = H.world host.new; printed = O.contents output.new }) (H.written host.new) result }
{
    match read_bank(alloc, file) {
        Ok((bank, _counts)) => {
            bank.soundness();
            match pair_to_write(&bank, paths.sample) {
                Ok((left, right)) => put(host, paths.out, &PairWave::new(left, right), output),
                Err(fault) => Err(Fault::Run(fault, paths.out)),
            }
        }
        Err(fault) => Err(Fault::Run(fault, paths.out)),
    }
}
