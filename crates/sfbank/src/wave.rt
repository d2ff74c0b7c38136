//! A sample, or a pair of samples, as a WAVE file, from bytes to bytes.
ghost use Rattle.std.specs.Option.{option_copied};
ghost use Rattle.sfbank.specs.Recordings.{pair_outcome, wave_outcome};
ghost use Rattle.sfbank.specs.PairSteps.{FindsAlike, FindsPair};
ghost use Rattle.sfbank.specs.Written.{RunsOneText};

use crate::reading::read_bank;
use crate::writing::write_one;
use bank_core::{Bank, Sample};
use edit_refusals::Cause;
use file_host::Which;
use pair_waves::PairWave;
use program_reports::RunFault;
use sample_replacements::pair_of;
use sf_reader::read;
use std::alloc::Global;
use std::io::Write;
use wave_file::{SampleWave, WaveFault};

/// Reads the file, writes sample `sample` of its bank, counted from 0, to `out` as a WAVE file, and flushes `out`. The
/// file is 16-bit mono: the sample's points, and a `smpl` chunk with its key, correction and loop.
///
/// Where the file has a fault, the bank has no such sample or an allocation fails, nothing is written. A fault of the
/// writer (`Which::Out`) has the number of bytes written.
pub fn wave_run<W: Write>(
    alloc: Global,
    file: &[u8],
    sample: u32,
    out: &mut W,
) -> Result<(), RunFault>
    // The outcome is the fault of the file, else `NoSuchSample`, else the WAVE file.
    ensures runs { RunsOneText (W.contents out.old) (W.contents out.new) (wave_outcome file.now sample) result }
{
    let (bank, _counts) = read(alloc, file)?;
    match bank.sample(sample) {
        Some(found) => write_one(Which::Out, &SampleWave::new(found), out),
        None => Err(RunFault::NoMember(Cause::NoSuchSample)),
    }
}

/// Reads the file, writes the pair of which sample `sample` of its bank, counted from 0, is one to `out` as a WAVE file,
/// and flushes `out`. The file is 16-bit stereo: the points of the left and of the right sample, and a `smpl` chunk with
/// the left sample's key, correction and loop.
///
/// Where the file has a fault, the bank has no such sample, it is not one of a pair (`NotAPair`), the two differ in
/// length or rate (`SidesDiffer`) or an allocation fails, nothing is written. A fault of the writer (`Which::Out`) has
/// the number of bytes written.
pub fn pair_run<W: Write>(
    alloc: Global,
    file: &[u8],
    sample: u32,
    out: &mut W,
) -> Result<(), RunFault>
    // The outcome is the fault of the file, else why there is no pair, else the WAVE file.
    ensures runs { RunsOneText (W.contents out.old) (W.contents out.new) (pair_outcome file.now sample) result }
{
    match read_bank(alloc, file) {
        Ok((bank, _counts)) => {
            bank.soundness();
            match pair_to_write(&bank, sample) {
                Ok((left, right)) => write_one(Which::Out, &PairWave::new(left, right), out),
                Err(fault) => Err(fault),
            }
        }
        Err(fault) => Err(fault),
    }
}

/// The left and the right sample of the pair of which sample `sample` is one, of one length and rate.
pub(crate) fn pair_to_write<'t, 'a>(
    bank: &'t Bank<'a>,
    sample: u32,
) -> Result<(&'t Sample<'a>, &'t Sample<'a>), RunFault>
    ensures { FindsPair (λ pair. (pair.0.now, pair.1.now)) bank.now.samples sample result }
{
    if bank.sample(sample).is_none() {
        return Err(RunFault::NoMember(Cause::NoSuchSample));
    }
    match pair_of(bank, sample) {
        Some((left, right)) => alike_samples(bank.sample(left), bank.sample(right)),
        None => Err(RunFault::Recording(WaveFault::NotAPair)),
    }
}

// Two samples of one length and rate.
fn alike_samples<'t, 'a>(
    left: Option<&'t Sample<'a>>,
    right: Option<&'t Sample<'a>>,
) -> Result<(&'t Sample<'a>, &'t Sample<'a>), RunFault>
    ensures { FindsAlike (λ pair. (pair.0.now, pair.1.now)) (option_copied left.entry) (option_copied right.entry) result }
{
    match (left, right) {
        (Some(left), Some(right)) => {
            if left.points.len() == right.points.len() && left.rate == right.rate {
                Ok((left, right))
            } else {
                Err(RunFault::Recording(WaveFault::SidesDiffer))
            }
        }
        _ => Err(RunFault::Recording(WaveFault::NotAPair)),
    }
}
