//! The bank of a folder, from bytes to bytes.
ghost use Rattle.std.specs.Prelude.{◌≡◌, Ok, map, slice_get};
ghost use Rattle.bank_format.specs.Canon.{canon};
ghost use Rattle.edit_script.specs.Script.{script_of};
ghost use Rattle.script_tokens.specs.Pool.{pool_bytes};
ghost use Rattle.sfbank.specs.Folders.{all_points, lines_read, made_of, pack_outcome, packed};
ghost use Rattle.sfbank.specs.FolderSteps.{IsPoolOf};
ghost use Rattle.sfbank.specs.Written.{Prepared, RunsOneText};

use crate::edited_bank::{EditedBank, apply_all};
use crate::new::empty_bank;
use crate::writing::write_one;
use bank_folders::{BareSample, bare_samples, fill, minor_of, points_for};
use base_progress::NoReports;
use edit_script::{Line, parse, pool_of};
use file_host::Which;
use program_hints::Remarks;
use program_reports::RunFault;
use sample_view::Points;
use sf_writer::BankFile;
use std::alloc::Global;
use std::io::Write;

/// A text, and its literals.
#[derive(Clone, Copy)]
pub(crate) struct FolderText<'t> {
    pub(crate) text: &'t [u8],
    pub(crate) pool: &'t [u8],
}

/// Makes the bank of a text and of WAVE files, as the folder of a bank has them, and writes its canonical file to `out`.
/// Flushes `out`.
///
/// The text is a script that is run on the empty bank of its minor version. Each line `add-sample` without points gets
/// the points of the next WAVE file, which must be 16-bit mono, of the rate of the line, and long enough for its loop.
///
/// Where the text or a WAVE file has a fault, an edit is refused or an allocation fails, nothing is written. A fault of
/// the writer (`Which::Out`) has the number of bytes written.
pub fn pack_run<'x, W: Write>(
    alloc: Global,
    text: &'x [u8],
    waves: &[&'x [u8]],
    out: &mut W,
) -> Result<(), RunFault>
    // The outcome is the fault of the text, else of the first faulty WAVE file by its number, else the first refused
    // line, else the canonical file.
    ensures runs { RunsOneText (W.contents out.old) (W.contents out.new) (pack_outcome text.now (map (λ wave. wave.now) waves.now)) result }
{
    match text_pool(alloc, text) {
        Ok(pool) => {
            let pool = pool.as_slice();
            match pack(
                alloc,
                FolderText { text, pool },
                waves,
                &mut Remarks::new(false),
            ) {
                Ok(packed) => write_one(Which::Out, &BankFile(&packed.bank), out),
                Err(fault) => Err(fault),
            }
        }
        Err(fault) => Err(fault),
    }
}

/// The literals of a text.
pub(crate) fn text_pool(alloc: Global, text: &[u8]) -> Result<Vec<u8>, RunFault>
    ensures { IsPoolOf (λ pool. pool.items) text.now result }
{
    let pool = pool_of(alloc, text)?;
    Ok(pool)
}

/// The lines of a text.
pub(crate) fn text_lines<'a>(alloc: Global, text: FolderText<'a>) -> Result<Vec<Line<'a>>, RunFault>
    requires { pool_bytes text.text.now ≡ Ok text.pool.now }
    ensures { Prepared (λ lines. lines.items) (lines_read (script_of text.entry.text.now)) result }
{
    let lines = parse(alloc, text.text, text.pool)?;
    Ok(lines)
}

/// Makes the bank of a text and of WAVE files. What helps with a refused line is added to `remarks`.
pub(crate) fn pack<'a>(
    alloc: Global,
    text: FolderText<'a>,
    waves: &[&'a [u8]],
    remarks: &mut Remarks,
) -> Result<EditedBank<'a>, RunFault>
    requires { pool_bytes text.text.now ≡ Ok text.pool.now }
    ensures { Prepared (λ made. canon made.bank) (pack_outcome text.entry.text.now (map (λ wave. wave.now) waves.now)) result }
{
    match text_lines(alloc, text) {
        Ok(lines) => pack_lines(alloc, minor_of(text.text), lines, waves, remarks),
        Err(fault) => Err(fault),
    }
}

// Makes the bank of lines and of WAVE files.
fn pack_lines<'a>(
    alloc: Global,
    minor: u16,
    lines: Vec<Line<'a>>,
    waves: &[&'a [u8]],
    remarks: &mut Remarks,
) -> Result<EditedBank<'a>, RunFault>
    ensures { Prepared (λ made. canon made.bank) (packed minor (Ok lines.entry.items) (map (λ wave. wave.now) waves.now)) result }
{
    let samples = bare_samples(alloc, lines.as_slice())?;
    let points = read_points(alloc, samples, waves)?;
    let full = fill(alloc, lines, points)?;
    make_bank(alloc, minor, full, remarks)
}

// Runs lines on the empty bank of a minor version.
fn make_bank<'a>(
    alloc: Global,
    minor: u16,
    lines: Vec<Line<'a>>,
    remarks: &mut Remarks,
) -> Result<EditedBank<'a>, RunFault>
    ensures { Prepared (λ made. canon made.bank) (made_of minor lines.entry.items) result }
{
    let mut bank = empty_bank(alloc, minor)?;
    let undo = apply_all(alloc, &mut bank, lines, remarks, &mut NoReports)?;
    Ok(EditedBank { bank, undo })
}

// The points of samples by their WAVE files.
fn read_points<'a>(
    alloc: Global,
    samples: Vec<BareSample>,
    waves: &[&'a [u8]],
) -> Result<Vec<Points<'a>>, RunFault>
    ensures { Prepared (λ all. all.items) (all_points samples.items (map (λ wave. wave.now) waves.now)) result }
{
    let mut all = Vec::new(alloc);
    let mut number = 0;
    for sample in samples {
        let Some(wave) = wave_at(waves, number) else {
            return Ok(all);
        };
        number += 1;
        match points_for(alloc, &sample, wave) {
            Ok(points) => all.push(points)?,
            Err(fault) => return Err(RunFault::InRecording(number as u64, fault)),
        }
    }
    Ok(all)
}

fn wave_at<'a>(waves: &[&'a [u8]], number: usize) -> Option<&'a [u8]>
    ensures { result ≡ slice_get waves.now number }
{
    waves.get(number).copied()
}
