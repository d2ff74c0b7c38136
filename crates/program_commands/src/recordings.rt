//! The operands of the commands that read or write recordings.
ghost use Rattle.std.specs.Prelude.{◌≡◌, codes, false, suc, true};
ghost use Rattle.program_commands.specs.declared.words.Request.TheVariants as Request;
ghost use Rattle.program_commands.specs.Words.{no_kit_operands, operands_of, optional_channel, optional_key, optional_number};
ghost use Rattle.program_commands.specs.Words.{optional_seed, option_operands, rows_in, AreGiven, FindsOne};
ghost use Rattle.program_commands.specs.Words.{IsDecimal, IsGiven};

use crate::names::read_optional_name;
use crate::paths::{input_named, read_input, read_last_paths, read_output, read_path};
use crate::words::{is_set, read_flag, read_number, read_word};
use clap::ArgMatches;
use sf_base::Name20;
use wave_file::ReadOptions;

/// The operands of `import` of one recording.
#[derive(Clone, Copy)]
pub struct ImportPaths<'a> {
    pub input: &'a str,
    pub wave: &'a str,
    pub out: &'a str,
    pub undo: &'a str,
    pub options: ReadOptions,
    /// The name of the sample, if it is given.
    pub name: Option<Name20>,
    /// Whether the undo script may replace a bank.
    pub force: bool,
}

/// The operands of `replace`.
#[derive(Clone, Copy)]
pub struct ReplacePaths<'a> {
    pub input: &'a str,
    /// The sample's number.
    pub sample: u32,
    pub wave: &'a str,
    pub out: &'a str,
    pub undo: &'a str,
    pub options: ReadOptions,
    /// Whether the undo script may replace a bank.
    pub force: bool,
}

/// The operands of `wave`.
#[derive(Clone, Copy)]
pub struct WavePaths<'a> {
    pub input: &'a str,
    /// The sample's number.
    pub sample: u32,
    pub out: &'a str,
    /// Whether the pair that the sample is one of is written, as stereo.
    pub pair: bool,
    /// Whether the WAVE file may replace a bank.
    pub force: bool,
}

/// The operands of `wave` of all samples.
#[derive(Clone, Copy)]
pub struct WaveAllPaths<'a> {
    pub input: &'a str,
    pub folder: &'a str,
    /// The number of the instrument whose zones are listed, if it is given.
    pub instrument: Option<u32>,
    /// Whether the folder may be there already, and files in it be replaced.
    pub force: bool,
}

/// Returns the operands of `import` of one recording, if the words give them.
pub(crate) fn read_import<'a>(matches: &ArgMatches<'a>) -> Option<ImportPaths<'a>>
    ensures { FindsOne result (λ paths. AreGiven (rows_in matches.now) (operands_of (Request.Import paths))) }
{
    if asks_for_kit(matches) {
        return None;
    }
    let paths = read_last_paths(matches, "WAVE")?;
    if paths.recordings.len() != 1 {
        return None;
    }
    Some(ImportPaths {
        input: read_input(matches, "IN")?,
        wave: input_named(paths.recordings[0]),
        out: paths.out,
        undo: paths.undo,
        options: read_options(matches)?,
        name: read_optional_name(matches, "name")?,
        force: read_flag(matches, "force"),
    })
}

/// Whether an option is used that makes a kit.
pub(crate) fn asks_for_kit(matches: &ArgMatches<'_>) -> bool
    ensures kit { result ≡ true → AreGiven (rows_in matches.now) no_kit_operands → ⊥ }
    ensures alone { result ≡ false → AreGiven (rows_in matches.now) no_kit_operands }
{
    read_word(matches, "kit").is_some()
        || read_word(matches, "instrument").is_some()
        || read_word(matches, "preset").is_some()
}

/// Returns the operands of `replace`, if the words give them.
pub(crate) fn read_replace<'a>(matches: &ArgMatches<'a>) -> Option<ReplacePaths<'a>>
    ensures { FindsOne result (λ paths. AreGiven (rows_in matches.now) (operands_of (Request.Replace paths))) }
{
    Some(ReplacePaths {
        input: read_input(matches, "IN")?,
        sample: read_number(matches, "S")?,
        wave: read_input(matches, "WAVE")?,
        out: read_output(matches, "OUT")?,
        undo: read_output(matches, "UNDO")?,
        options: read_options(matches)?,
        force: read_flag(matches, "force"),
    })
}

/// Returns the operands of `wave` of one sample, if the words give them.
pub(crate) fn read_wave<'a>(matches: &ArgMatches<'a>) -> Option<WavePaths<'a>>
    ensures { FindsOne result (λ paths. AreGiven (rows_in matches.now) (operands_of (Request.Wave paths))) }
{
    if read_word(matches, "all").is_some() || read_word(matches, "instrument").is_some() {
        return None;
    }
    Some(WavePaths {
        input: read_input(matches, "IN")?,
        sample: read_number(matches, "S")?,
        out: read_output(matches, "OUT")?,
        pair: read_flag(matches, "pair"),
        force: read_flag(matches, "force"),
    })
}

/// Returns the operands of `wave` of all samples, if the words give them.
pub(crate) fn read_wave_all<'a>(matches: &ArgMatches<'a>) -> Option<WaveAllPaths<'a>>
    ensures { FindsOne result (λ paths. AreGiven (rows_in matches.now) (operands_of (Request.WaveAll paths))) }
{
    if read_word(matches, "S").is_some()
        || read_word(matches, "OUT").is_some()
        || is_set(matches, "pair")
    {
        return None;
    }
    Some(WaveAllPaths {
        input: read_input(matches, "IN")?,
        folder: read_path(matches, "all")?,
        instrument: read_instrument(matches)?,
        force: read_flag(matches, "force"),
    })
}

// Returns the number of the instrument.
fn read_instrument(matches: &ArgMatches<'_>) -> Option<Option<u32>>
    ensures { FindsOne result (λ n. IsGiven (rows_in matches.now) (optional_number (codes "instrument") n)) }
{
    match read_word(matches, "instrument") {
        Some(text) => Some(Some(text.parse().ok()?)),
        None => Some(None),
    }
}

/// Returns how a recording is read.
pub(crate) fn read_options(matches: &ArgMatches<'_>) -> Option<ReadOptions>
    ensures { FindsOne result (λ options. AreGiven (rows_in matches.now) (option_operands options)) }
{
    Some(ReadOptions {
        channel: read_channel(matches)?,
        key: read_key(matches)?,
        dither: read_seed(matches)?,
    })
}

// Returns the channel, which counts from 0, and in the words from 1.
fn read_channel(matches: &ArgMatches<'_>) -> Option<Option<u16>>
    ensures { FindsOne result (λ channel. IsGiven (rows_in matches.now) (optional_channel channel)) }
{
    match read_word(matches, "channel") {
        Some(text) => Some(Some(parse_channel(text)?)),
        None => Some(None),
    }
}

// Returns the root key.
fn read_key(matches: &ArgMatches<'_>) -> Option<Option<u8>>
    ensures { FindsOne result (λ key. IsGiven (rows_in matches.now) (optional_key key)) }
{
    match read_word(matches, "key") {
        Some(text) => Some(Some(parse_key(text)?)),
        None => Some(None),
    }
}

// Returns the seed of the dither.
fn read_seed(matches: &ArgMatches<'_>) -> Option<Option<u64>>
    ensures { FindsOne result (λ seed. IsGiven (rows_in matches.now) (optional_seed seed)) }
{
    match read_word(matches, "dither") {
        Some(text) => Some(Some(parse_seed(text)?)),
        None => Some(None),
    }
}

// Returns a channel, counted from 0, of its number from 1 on.
fn parse_channel(text: &str) -> Option<u16>
    ensures { FindsOne result (λ channel. IsDecimal 16 text.now (suc channel)) }
{
    let number: u16 = text.parse().ok()?;
    number.checked_sub(1)
}

// Returns a key from 0 to 127.
fn parse_key(text: &str) -> Option<u8>
    ensures { FindsOne result (IsDecimal 7 text.now) }
{
    let key: u8 = text.parse().ok()?;
    if key < 128 { Some(key) } else { None }
}

fn parse_seed(text: &str) -> Option<u64>
    ensures { FindsOne result (IsDecimal 64 text.now) }
{
    text.parse().ok()
}
