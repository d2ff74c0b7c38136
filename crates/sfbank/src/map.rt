//! The map of a preset or an instrument, and the waveform of a sample.
ghost use Rattle.std.specs.Prelude.{◌≡◌};
ghost use Rattle.sfbank.specs.Maps.{has_drawn, cause_of_missing, map_outcome, drawing};
ghost use Rattle.sfbank.specs.Written.{Prepared, RunsOneText};

use crate::reading::read_bank;
use crate::writing::write_one;
use bank_core::{Bank, Owner};
use base_outputs::Output;
use base_texts::Text;
use edit_refusals::Cause;
use file_host::Which;
use program_commands::Drawn;
use program_reports::RunFault;
use show_sample::SamplePicture;
use show_zone_map::ZoneMap;
use std::alloc::Global;
use std::io::Write;

/// Reads the file, writes a drawing of one of its presets, instruments or samples to `out`, and flushes `out`. The
/// drawing is an SVG text: the key and velocity ranges in which notes select each zone, or the waveform of the sample.
///
/// Where the file has a fault, there is no such preset, instrument or sample or an allocation fails, nothing is written.
/// A fault of the writer (`Which::Out`) has the number of bytes written.
pub fn map_run<W: Write>(
    alloc: Global,
    file: &[u8],
    drawn: Drawn,
    out: &mut W,
) -> Result<(), RunFault>
    // The outcome is the fault of the file, else that there is no such member, else the drawing.
    ensures runs { RunsOneText (W.contents out.old) (W.contents out.new) (map_outcome file.now drawn) result }
{
    match read_drawn(alloc, file, drawn) {
        Ok(bank) => {
            let drawing = Drawing { bank: &bank, drawn };
            write_one(Which::Out, &drawing, out)
        }
        Err(fault) => Err(fault),
    }
}

/// What is drawn of a bank that has it.
#[derive(Clone, Copy)]
pub(crate) struct Drawing<'t, 'a> {
    pub(crate) bank: &'t Bank<'a>,
    pub(crate) drawn: Drawn,
}

impl Text for Drawing<'_, '_> {
    ghost bytes = { λ d. drawing d.bank.now d.drawn };

    fn put<W: Write>(&self, output: &mut Output<'_, W>) {
        let bank = self.bank;
        match self.drawn {
            Drawn::Ranges(owner) => ZoneMap { bank, owner }.put(output),
            Drawn::Waveform(sample) => SamplePicture { bank, sample }.put(output),
        }
    }
}

/// Reads a file as a bank that has what is drawn.
pub(crate) fn read_drawn(alloc: Global, file: &[u8], drawn: Drawn) -> Result<Bank<'_>, RunFault>
    ensures { Prepared (λ bank. drawing bank drawn) (map_outcome file.now drawn) result }
{
    match read_bank(alloc, file) {
        Ok((bank, _counts)) => {
            if has_drawn(&bank, drawn) {
                Ok(bank)
            } else {
                Err(RunFault::NoMember(cause_of_missing(drawn)))
            }
        }
        Err(fault) => Err(fault),
    }
}

// Whether the bank has what is drawn.
fn has_drawn(bank: &Bank<'_>, drawn: Drawn) -> bool
    ensures { result ≡ has_drawn bank.now drawn }
{
    match drawn {
        Drawn::Ranges(Owner::Preset(preset)) => (preset as usize) < bank.presets().len(),
        Drawn::Ranges(Owner::Inst(instrument)) => {
            (instrument as usize) < bank.instruments().len()
        }
        Drawn::Waveform(sample) => (sample as usize) < bank.samples().len(),
    }
}

// The cause reported for what the bank does not have.
fn cause_of_missing(drawn: Drawn) -> Cause
    ensures { result ≡ cause_of_missing drawn }
{
    match drawn {
        Drawn::Ranges(Owner::Preset(_)) => Cause::NoSuchPreset,
        Drawn::Ranges(Owner::Inst(_)) => Cause::NoSuchInstrument,
        Drawn::Waveform(_) => Cause::NoSuchSample,
    }
}
