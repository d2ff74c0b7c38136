//! The operands of `import` of a kit: several recordings, or those of a table, for an instrument and a preset.
ghost use Rattle.std.specs.Prelude.{◌≡◌, ◌||◌, IfOk, codes, is_some, map, true};
ghost use Rattle.program_commands.specs.Words.{input_named, is_kit, kit_operands, optional_named, rows_in};
ghost use Rattle.program_commands.specs.Words.{source_files, table_operand, AreGiven, FindsOne, IsGiven, Named};

use crate::names::{parse_name, read_optional_name};
use crate::paths::{input_named, read_input, read_last_paths};
use crate::presets::parse_preset;
use crate::recordings::read_options;
use crate::words::{read_flag, read_word};
use clap::ArgMatches;
use plan_presets::PresetNumbers;
use sf_base::Name20;
use std::alloc::{AllocError, Global};
use wave_file::ReadOptions;

/// The operands of `import` of a kit.
#[derive(Drop)]
pub struct KitPaths<'a> {
    pub input: &'a str,
    pub source: KitSource<'a>,
    pub out: &'a str,
    pub undo: &'a str,
    pub options: ReadOptions,
    /// The name of the instrument, if it is given.
    pub instrument: Option<Name20>,
    /// The preset that plays the instrument, if it is given.
    pub preset: Option<NewPreset>,
    /// Whether the undo script may replace a bank.
    pub force: bool,
}

/// Where the recordings of a kit are.
#[derive(Drop)]
pub enum KitSource<'a> {
    /// In these files.
    Files(Vec<&'a str>),
    /// In the files that this table names.
    Table(&'a str),
}

/// A preset that is added.
#[derive(Clone, Copy)]
pub struct NewPreset {
    pub numbers: PresetNumbers,
    pub name: Name20,
}

/// Returns the operands of `import` of a kit, if the words give them.
pub(crate) fn read_kit<'a>(
    alloc: Global,
    matches: &ArgMatches<'a>,
) -> Result<Option<KitPaths<'a>>, AllocError>
    ensures { IfOk result (λ found. FindsOne found (λ kit. AreGiven (rows_in matches.now) (kit_operands kit))) }
{
    if read_word(matches, "name").is_some() {
        return Ok(None);
    }
    let Some(input) = read_input(matches, "IN") else {
        return Ok(None);
    };
    let Some(paths) = read_last_paths(matches, "WAVE") else {
        return Ok(None);
    };
    let Some(options) = read_options(matches) else {
        return Ok(None);
    };
    let Some(instrument) = read_optional_name(matches, "instrument") else {
        return Ok(None);
    };
    let Some(preset) = read_optional_named(matches, "preset") else {
        return Ok(None);
    };
    let is_named = is_named(&instrument, &preset);
    let found = read_source(alloc, matches, paths.recordings, is_named)?;
    match found {
        Some(source) => Ok(Some(KitPaths {
            input,
            source,
            out: paths.out,
            undo: paths.undo,
            options,
            instrument,
            preset,
            force: read_flag(matches, "force"),
        })),
        None => Ok(None),
    }
}

// Whether an instrument or a preset is named.
fn is_named(instrument: &Option<Name20>, preset: &Option<NewPreset>) -> bool
    ensures { result ≡ (is_some instrument.now || is_some preset.now) }
{
    instrument.is_some() || preset.is_some()
}

// Returns where the recordings are, if these words of recordings, and a table or none, make a kit.
fn read_source<'a>(
    alloc: Global,
    matches: &ArgMatches<'a>,
    recordings: &[&'a str],
    is_named: bool,
) -> Result<Option<KitSource<'a>>, AllocError>
    ensures { IfOk result (λ found. FindsOne found (λ source. IsGiven (rows_in matches.now) (table_operand source)
        × (source_files source ≡ map (λ word. input_named word.now) recordings.now)
        × (is_kit is_named source ≡ true))) }
{
    let least = if is_named { 1 } else { 2 };
    match read_input(matches, "kit") {
        Some(table) if recordings.is_empty() => Ok(Some(KitSource::Table(table))),
        None if least <= recordings.len() => {
            Ok(Some(KitSource::Files(inputs_named(alloc, recordings)?)))
        }
        _ => Ok(None),
    }
}

// Returns the paths of the inputs that the words name.
fn inputs_named<'a>(alloc: Global, words: &[&'a str]) -> Result<Vec<&'a str>, AllocError>
    ensures { IfOk result (λ paths. map (λ path. path.now) paths.items
        ≡ map (λ word. input_named word.now) words.now) }
{
    let mut paths = Vec::new(alloc);
    for word in words {
        paths.push(input_named(word))?;
    }
    Ok(paths)
}

// Returns the preset that the option names, if it is used.
fn read_optional_named(matches: &ArgMatches<'_>, option: &str) -> Option<Option<NewPreset>>
    ensures { FindsOne result (λ preset. IsGiven (rows_in matches.now) (optional_named option.now preset)) }
{
    match read_word(matches, option) {
        Some(_) => Some(Some(read_named(matches, option)?)),
        None => Some(None),
    }
}

// Returns the preset that the two values of the option name.
fn read_named(matches: &ArgMatches<'_>, option: &str) -> Option<NewPreset>
    ensures { FindsOne result (λ preset. IsGiven (rows_in matches.now) (Named option.now preset)) }
{
    let values = matches.get_strs(option)?;
    if values.len() != 2 {
        return None;
    }
    Some(NewPreset {
        numbers: parse_preset(values[0])?,
        name: parse_name(values[1])?,
    })
}
