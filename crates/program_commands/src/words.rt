//! Reads a request from the words that the program was started with.
ghost use Rattle.std.specs.Prelude.{◌≡◌, ◌≢◌, IfOk, codes, false, map, option_map, true};
ghost use Rattle.clap.specs.Words.{app_of, first_of, is_simple_and_free, subcommand_of, subcommand_rows_of};
ghost use Rattle.program_commands.specs.Commands.{sfbank_app};
ghost use Rattle.program_commands.specs.Words.{Number, Flag, is_neutral, drawn_operands, operands_of};
ghost use Rattle.program_commands.specs.Words.{rows_in, AreGiven, AsksFor, FailsByFault, FindsOne, IsGiven};
ghost use Rattle.program_commands.specs.Words.{IsParsedBy};

use crate::commands::{command_named, sfbank_command};
use crate::explain::{Topic, read_topic};
use crate::folders::{read_pack, read_unpack};
use crate::kits::{KitPaths, read_kit};
use crate::paths::{read_input, read_output, read_path};
use crate::plans::{
    CopyPaths, KeepPaths, MergePaths, TakePaths, TidyPaths, read_copy, read_keep, read_merge,
    read_take, read_tidy, saves_in_dry_run,
};
use crate::recordings::{
    ImportPaths, ReplacePaths, WaveAllPaths, WavePaths, asks_for_kit, read_import, read_replace,
    read_wave, read_wave_all,
};
use bank_changes::Owner;
use clap::error::ErrorKind;
use clap::{ArgMatches, Command, Error};
use std::alloc::{AllocError, Global};
use std::convert::AsStr;

/// What the program was asked to do.
#[derive(Drop)]
pub enum Request<'a> {
    /// Run a script on a bank.
    Apply(ApplyPaths<'a>),
    /// Run a script on a bank, and write no undo script.
    ApplyOnly(ApplyOnlyPaths<'a>),
    /// Write a bank in its canonical form.
    Canon(CanonPaths<'a>),
    /// List what is probably a mistake.
    Check(CheckPaths<'a>),
    /// Copy a preset, an instrument or a sample.
    Copy(CopyPaths<'a>),
    /// Write a script that turns one bank into another.
    Diff(DiffPaths<'a>),
    /// Explain a fault or refusal, or list the generators.
    Explain(Topic<'a>),
    /// Add a recording to a bank.
    Import(ImportPaths<'a>),
    /// Add the recordings of a kit to a bank.
    ImportKit(KitPaths<'a>),
    /// Remove all that some presets don't need.
    Keep(KeepPaths<'a>),
    /// Edit and play a bank live.
    Live(LivePaths<'a>),
    /// Draw the key and velocity ranges of a preset or an instrument, or the waveform of a sample.
    Map(MapPaths<'a>),
    /// Add all that another bank has.
    Merge(MergePaths<'a>),
    /// Write an empty bank.
    New(NewBank<'a>),
    /// Make the bank of a folder.
    Pack(PackPaths<'a>),
    /// Write a bank as an HTML page.
    Page(PagePaths<'a>),
    /// Play notes on a bank into a WAVE file.
    Play(PlayPaths<'a>),
    /// Put a recording in the place of a sample.
    Replace(ReplacePaths<'a>),
    /// Write a script that makes a bank from an empty one.
    Script(ScriptPaths<'a>),
    /// List what a bank has.
    Show(ShowPaths<'a>),
    /// Copy presets of another bank into a bank.
    Take(TakePaths<'a>),
    /// Remove what a bank doesn't use, and change no sound.
    Tidy(TidyPaths<'a>),
    /// Write a bank as a folder.
    Unpack(UnpackPaths<'a>),
    /// Write a sample as a WAVE file.
    Wave(WavePaths<'a>),
    /// Write all samples as WAVE files, and the zones of an instrument as a table.
    WaveAll(WaveAllPaths<'a>),
}

/// The forms of edits that `apply` accepts.
#[derive(Clone, Copy)]
pub enum Forms {
    Every,
    /// Only those that never change a sound.
    Neutral,
}

/// The operands of `apply`.
#[derive(Clone, Copy)]
pub struct ApplyPaths<'a> {
    pub input: &'a str,
    pub script: &'a str,
    pub out: &'a str,
    pub undo: &'a str,
    pub forms: Forms,
    /// Whether the undo script may replace a bank.
    pub force: bool,
}

/// The operands of `apply --no-undo`.
#[derive(Clone, Copy)]
pub struct ApplyOnlyPaths<'a> {
    pub input: &'a str,
    pub script: &'a str,
    pub out: &'a str,
    pub forms: Forms,
}

/// The operands of `canon`.
#[derive(Clone, Copy)]
pub struct CanonPaths<'a> {
    pub input: &'a str,
    pub out: &'a str,
}

/// The operands of `check`.
#[derive(Clone, Copy)]
pub struct CheckPaths<'a> {
    pub input: &'a str,
    /// Whether a finding is a fault.
    pub strict: bool,
}

/// The operands of `diff`.
#[derive(Clone, Copy)]
pub struct DiffPaths<'a> {
    pub first: &'a str,
    pub second: &'a str,
    pub out: &'a str,
    /// Whether the script has no comments.
    pub no_comments: bool,
    /// Whether the script may replace a bank.
    pub force: bool,
}

/// The operands of `live`.
#[derive(Clone, Copy)]
pub struct LivePaths<'a> {
    pub input: &'a str,
    pub pcm: &'a str,
    /// Whether the frames, and the undo script of each save, may replace a bank.
    pub force: bool,
}

/// What `map` draws.
#[derive(Clone, Copy)]
pub enum Drawn {
    /// The key and velocity ranges of a preset or an instrument.
    Ranges(Owner),
    /// The waveform of the sample with this number.
    Waveform(u32),
}

/// The operands of `map`.
#[derive(Clone, Copy)]
pub struct MapPaths<'a> {
    pub input: &'a str,
    pub drawn: Drawn,
    pub out: &'a str,
    /// Whether the picture may replace a bank.
    pub force: bool,
}

/// The operands of `new`.
#[derive(Clone, Copy)]
pub struct NewBank<'a> {
    pub out: &'a str,
    /// The minor version of the format.
    pub minor: u16,
    /// Whether the empty bank may replace a bank.
    pub force: bool,
}

/// The operands of `pack`.
#[derive(Clone, Copy)]
pub struct PackPaths<'a> {
    pub folder: &'a str,
    pub out: &'a str,
    /// Whether the bank may replace a bank.
    pub force: bool,
}

/// The operands of `page`.
#[derive(Clone, Copy)]
pub struct PagePaths<'a> {
    pub input: &'a str,
    pub out: &'a str,
    /// Whether the page may replace a bank.
    pub force: bool,
}

/// The operands of `play`.
#[derive(Clone, Copy)]
pub struct PlayPaths<'a> {
    pub input: &'a str,
    pub notes: &'a str,
    pub out: &'a str,
    /// Whether the WAVE file may replace a bank.
    pub force: bool,
}

/// The operands of `script`.
#[derive(Clone, Copy)]
pub struct ScriptPaths<'a> {
    pub input: &'a str,
    pub out: &'a str,
    /// Whether the script leaves out the points of samples.
    pub no_points: bool,
    /// Whether the script has no comments.
    pub no_comments: bool,
    /// Whether the script may replace a bank.
    pub force: bool,
}

/// The operands of `show`.
#[derive(Clone, Copy)]
pub struct ShowPaths<'a> {
    pub input: &'a str,
    /// Whether zones are listed too.
    pub zones: bool,
    /// Whether the zones that use each instrument and sample are counted.
    pub uses: bool,
}

/// The operands of `unpack`.
#[derive(Clone, Copy)]
pub struct UnpackPaths<'a> {
    pub input: &'a str,
    pub folder: &'a str,
    /// Whether the folder may be there already, and files in it be replaced.
    pub force: bool,
}

/// Returns what the words ask for. The first word is the program's name. For `--help` and `--version` it returns an
/// error of clap's that has the text to print.
pub fn request_of<'a, S: AsStr>(alloc: Global, words: &'a [S]) -> Result<Request<'a>, Error>
    ensures request { IfOk result (λ request. AsksFor (subcommand_of sfbank_app (map S.text words.entry.now)) request) }
    ensures fault { FailsByFault sfbank_app (map S.text words.entry.now) result }
{
    let mut command = sfbank_command(alloc)?;
    parse_request(alloc, &mut command, words)
}

fn parse_request<'a, S: AsStr>(
    alloc: Global,
    command: &mut Command<'a>,
    words: &'a [S],
) -> Result<Request<'a>, Error>
    ensures request { IfOk result (λ request. IsParsedBy (app_of command.old) (map S.text words.entry.now) request) }
    ensures fault { is_simple_and_free (app_of command.old) ≡ true
        → FailsByFault (app_of command.old) (map S.text words.entry.now) result }
{
    let matches = command.try_get_matches_from_mut(words)?;
    let found = request_in(alloc, &matches)?;
    match found {
        Some(request) => Ok(request),
        None => Err(no_request(alloc, command, &matches)?),
    }
}

/// Returns the error for words in which clap finds no fault, but which make no request. It shows the usage of the
/// command that they use.
fn no_request(
    alloc: Global,
    program: &mut Command<'_>,
    matches: &ArgMatches<'_>,
) -> Result<Error, AllocError> {
    let message = rejection(matches);
    let Some(name) = matches.subcommand_name() else {
        return program.error(ErrorKind::MissingSubcommand, message);
    };
    let found = command_named(alloc, name)?;
    match found {
        Some(mut command) => command.error(ErrorKind::ValueValidation, message),
        None => program.error(ErrorKind::MissingSubcommand, message),
    }
}

/// Returns the message for words in which clap finds no fault, but which make no request.
fn rejection(matches: &ArgMatches<'_>) -> &'static str {
    match matches.subcommand() {
        Some((_, words)) if saves_in_dry_run(words) => {
            "--script saves the edits that --dry-run prints: give one of the two"
        }
        Some(("apply", _)) => "apply needs UNDO, or --no-undo and neither UNDO nor --force",
        Some(("copy", _)) => {
            "copy takes --name NAME of at most 20 bytes, and --as BANK:NUMBER for a preset only, such as --as 8:24"
        }
        Some(("import", words)) => no_import(words),
        Some(("keep", _)) => {
            "keep needs either --notes NOTES, which --zones can follow, or --preset BANK:NUMBER, such as --preset 0:24"
        }
        Some(("live", _)) => {
            "live writes its answers to the standard output, so PCM can't be -: name a pipe or a file"
        }
        Some(("pack", _)) | Some(("unpack", _)) => "FOLDER can't be -: name a folder",
        Some(("replace", _)) => {
            "replace takes --channel from 1 on, --key from 0 to 127, and --dither SEED"
        }
        Some(("take", _)) => {
            "take needs --preset BANK:NUMBER[=BANK:NUMBER], such as --preset 0:24 or --preset 0:24=8:24"
        }
        Some(("wave", _)) => {
            "wave needs S and OUT, or --all FOLDER, which --instrument N and no --pair can follow"
        }
        _ => "no command was given",
    }
}

/// Returns the message for words of `import` which make no request.
fn no_import(words: &ArgMatches<'_>) -> &'static str {
    if asks_for_kit(words) {
        "import of a kit needs WAVE files or --kit TABLE, then OUT and UNDO, and no --name; --instrument NAME and \
         --preset BANK:NUMBER NAME, such as --preset 128:0 Drums, take names of at most 20 bytes; it takes --channel \
         from 1 on, --key from 0 to 127, and --dither SEED"
    } else {
        "import needs WAVE, OUT and UNDO; it takes --channel from 1 on, --key from 0 to 127, --dither SEED, and \
         --name NAME of at most 20 bytes for one WAVE"
    }
}

fn request_in<'a>(
    alloc: Global,
    matches: &ArgMatches<'a>,
) -> Result<Option<Request<'a>>, AllocError>
    ensures { IfOk result (λ found. FindsOne found (AsksFor (subcommand_rows_of matches.now))) }
{
    let Some((name, words)) = matches.subcommand() else {
        return Ok(None);
    };
    if name == "keep" {
        request_to_keep(alloc, words)
    } else if name == "import" {
        request_to_import(alloc, words)
    } else if name == "take" {
        request_to_take(alloc, words)
    } else {
        Ok(request_of_command(name, words))
    }
}

/// Returns the request of `import`: that of one recording, or that of a kit. No words ask for both.
fn request_to_import<'a>(
    alloc: Global,
    words: &ArgMatches<'a>,
) -> Result<Option<Request<'a>>, AllocError>
    ensures { IfOk result (λ found. FindsOne found (AsksFor (Some (codes "import", rows_in words.now)))) }
{
    if let Some(paths) = read_import(words) {
        return Ok(Some(Request::Import(paths)));
    }
    let found = read_kit(alloc, words)?;
    match found {
        Some(kit) => Ok(Some(Request::ImportKit(kit))),
        None => Ok(None),
    }
}

fn request_to_keep<'a>(
    alloc: Global,
    words: &ArgMatches<'a>,
) -> Result<Option<Request<'a>>, AllocError>
    ensures { IfOk result (λ found. FindsOne found (AsksFor (Some (codes "keep", rows_in words.now)))) }
{
    let found = read_keep(alloc, words)?;
    match found {
        Some(keep) => Ok(Some(Request::Keep(keep))),
        None => Ok(None),
    }
}

fn request_to_take<'a>(
    alloc: Global,
    words: &ArgMatches<'a>,
) -> Result<Option<Request<'a>>, AllocError>
    ensures { IfOk result (λ found. FindsOne found (AsksFor (Some (codes "take", rows_in words.now)))) }
{
    let found = read_take(alloc, words)?;
    match found {
        Some(take) => Ok(Some(Request::Take(take))),
        None => Ok(None),
    }
}

/// Returns the request of `apply`: the one that UNDO is for, or that of `--no-undo`. No words ask for both.
fn request_to_apply<'a>(words: &ArgMatches<'a>) -> Option<Request<'a>>
    ensures { FindsOne result (AsksFor (Some (codes "apply", rows_in words.now))) }
{
    match read_apply(words) {
        Some(paths) => Some(Request::Apply(paths)),
        None => Some(Request::ApplyOnly(read_apply_only(words)?)),
    }
}

/// Returns the request of `copy`. Its operands hold a name and borrow words, for which the language has no `?`.
fn request_to_copy<'a>(words: &ArgMatches<'a>) -> Option<Request<'a>>
    ensures { FindsOne result (AsksFor (Some (codes "copy", rows_in words.now))) }
{
    match read_copy(words) {
        Some(copy) => Some(Request::Copy(copy)),
        None => None,
    }
}

/// Returns the request of `wave`: that of one sample, or that of all. No words ask for both.
fn request_to_wave<'a>(words: &ArgMatches<'a>) -> Option<Request<'a>>
    ensures { FindsOne result (AsksFor (Some (codes "wave", rows_in words.now))) }
{
    match read_wave(words) {
        Some(paths) => Some(Request::Wave(paths)),
        None => Some(Request::WaveAll(read_wave_all(words)?)),
    }
}

/// Returns the request of a command other than `import`, `keep` and `take`.
fn request_of_command<'a>(name: &str, words: &ArgMatches<'a>) -> Option<Request<'a>>
    requires not_import { name.now ≢ codes "import" }
    requires not_keep { name.now ≢ codes "keep" }
    requires not_take { name.now ≢ codes "take" }
    ensures { FindsOne result (AsksFor (Some (name.now, rows_in words.now))) }
{
    Some(match name {
        "apply" => return request_to_apply(words),
        "canon" => Request::Canon(read_canon(words)?),
        "check" => Request::Check(read_check(words)?),
        "copy" => return request_to_copy(words),
        "diff" => Request::Diff(read_diff(words)?),
        "explain" => Request::Explain(read_topic(words)?),
        "live" => Request::Live(read_live(words)?),
        "map" => Request::Map(read_map(words)?),
        "merge" => Request::Merge(read_merge(words)?),
        "new" => Request::New(read_new(words)?),
        "pack" => Request::Pack(read_pack(words)?),
        "page" => Request::Page(read_page(words)?),
        "play" => Request::Play(read_play(words)?),
        "replace" => Request::Replace(read_replace(words)?),
        "script" => Request::Script(read_script(words)?),
        "show" => Request::Show(read_show(words)?),
        "tidy" => Request::Tidy(read_tidy(words)?),
        "unpack" => Request::Unpack(read_unpack(words)?),
        "wave" => return request_to_wave(words),
        _ => return None,
    })
}

fn read_apply<'a>(matches: &ArgMatches<'a>) -> Option<ApplyPaths<'a>>
    ensures { FindsOne result (λ paths. AreGiven (rows_in matches.now) (operands_of (Request.Apply paths))) }
{
    if is_set(matches, "no-undo") {
        return None;
    }
    Some(ApplyPaths {
        input: read_input(matches, "IN")?,
        script: read_input(matches, "SCRIPT")?,
        out: read_output(matches, "OUT")?,
        undo: read_output(matches, "UNDO")?,
        forms: read_forms(matches),
        force: read_flag(matches, "force"),
    })
}

fn read_apply_only<'a>(matches: &ArgMatches<'a>) -> Option<ApplyOnlyPaths<'a>>
    ensures { FindsOne result (λ paths. AreGiven (rows_in matches.now) (operands_of (Request.ApplyOnly paths))) }
{
    if !is_set(matches, "no-undo")
        || read_word(matches, "UNDO").is_some()
        || is_set(matches, "force")
    {
        return None;
    }
    Some(ApplyOnlyPaths {
        input: read_input(matches, "IN")?,
        script: read_input(matches, "SCRIPT")?,
        out: read_output(matches, "OUT")?,
        forms: read_forms(matches),
    })
}

fn read_forms(matches: &ArgMatches<'_>) -> Forms
    ensures { IsGiven (rows_in matches.now) (Flag (codes "neutral") (is_neutral result)) }
{
    if read_flag(matches, "neutral") {
        Forms::Neutral
    } else {
        Forms::Every
    }
}

fn read_canon<'a>(matches: &ArgMatches<'a>) -> Option<CanonPaths<'a>>
    ensures { FindsOne result (λ paths. AreGiven (rows_in matches.now) (operands_of (Request.Canon paths))) }
{
    Some(CanonPaths {
        input: read_input(matches, "IN")?,
        out: read_output(matches, "OUT")?,
    })
}

fn read_check<'a>(matches: &ArgMatches<'a>) -> Option<CheckPaths<'a>>
    ensures { FindsOne result (λ paths. AreGiven (rows_in matches.now) (operands_of (Request.Check paths))) }
{
    Some(CheckPaths {
        input: read_input(matches, "IN")?,
        strict: read_flag(matches, "strict"),
    })
}

fn read_diff<'a>(matches: &ArgMatches<'a>) -> Option<DiffPaths<'a>>
    ensures { FindsOne result (λ paths. AreGiven (rows_in matches.now) (operands_of (Request.Diff paths))) }
{
    Some(DiffPaths {
        first: read_input(matches, "A")?,
        second: read_input(matches, "B")?,
        out: read_output(matches, "OUT")?,
        no_comments: read_flag(matches, "no-comments"),
        force: read_flag(matches, "force"),
    })
}

fn read_live<'a>(matches: &ArgMatches<'a>) -> Option<LivePaths<'a>>
    ensures { FindsOne result (λ paths. AreGiven (rows_in matches.now) (operands_of (Request.Live paths))) }
{
    Some(LivePaths {
        input: read_input(matches, "IN")?,
        pcm: read_path(matches, "PCM")?,
        force: read_flag(matches, "force"),
    })
}

fn read_map<'a>(matches: &ArgMatches<'a>) -> Option<MapPaths<'a>>
    ensures { FindsOne result (λ paths. AreGiven (rows_in matches.now) (operands_of (Request.Map paths))) }
{
    Some(MapPaths {
        input: read_input(matches, "IN")?,
        drawn: read_drawn(matches)?,
        out: read_output(matches, "OUT")?,
        force: read_flag(matches, "force"),
    })
}

fn read_drawn(matches: &ArgMatches<'_>) -> Option<Drawn>
    ensures { FindsOne result (λ drawn. AreGiven (rows_in matches.now) (drawn_operands drawn)) }
{
    let member = read_word(matches, "MEMBER")?;
    let number = read_number(matches, "N")?;
    if member == "preset" {
        Some(Drawn::Ranges(Owner::Preset(number)))
    } else if member == "inst" {
        Some(Drawn::Ranges(Owner::Inst(number)))
    } else if member == "sample" {
        Some(Drawn::Waveform(number))
    } else {
        None
    }
}

fn read_new<'a>(matches: &ArgMatches<'a>) -> Option<NewBank<'a>>
    ensures { FindsOne result (λ bank. AreGiven (rows_in matches.now) (operands_of (Request.New bank))) }
{
    Some(NewBank {
        out: read_output(matches, "OUT")?,
        minor: read_small(matches, "minor")?,
        force: read_flag(matches, "force"),
    })
}

fn read_page<'a>(matches: &ArgMatches<'a>) -> Option<PagePaths<'a>>
    ensures { FindsOne result (λ paths. AreGiven (rows_in matches.now) (operands_of (Request.Page paths))) }
{
    Some(PagePaths {
        input: read_input(matches, "IN")?,
        out: read_output(matches, "OUT")?,
        force: read_flag(matches, "force"),
    })
}

fn read_play<'a>(matches: &ArgMatches<'a>) -> Option<PlayPaths<'a>>
    ensures { FindsOne result (λ paths. AreGiven (rows_in matches.now) (operands_of (Request.Play paths))) }
{
    Some(PlayPaths {
        input: read_input(matches, "IN")?,
        notes: read_input(matches, "NOTES")?,
        out: read_output(matches, "OUT")?,
        force: read_flag(matches, "force"),
    })
}

fn read_script<'a>(matches: &ArgMatches<'a>) -> Option<ScriptPaths<'a>>
    ensures { FindsOne result (λ paths. AreGiven (rows_in matches.now) (operands_of (Request.Script paths))) }
{
    Some(ScriptPaths {
        input: read_input(matches, "IN")?,
        out: read_output(matches, "OUT")?,
        no_points: read_flag(matches, "no-points"),
        no_comments: read_flag(matches, "no-comments"),
        force: read_flag(matches, "force"),
    })
}

fn read_show<'a>(matches: &ArgMatches<'a>) -> Option<ShowPaths<'a>>
    ensures { FindsOne result (λ paths. AreGiven (rows_in matches.now) (operands_of (Request.Show paths))) }
{
    Some(ShowPaths {
        input: read_input(matches, "IN")?,
        zones: read_flag(matches, "zones"),
        uses: read_flag(matches, "uses"),
    })
}

pub(crate) fn read_word<'a>(matches: &ArgMatches<'a>, name: &str) -> Option<&'a str>
    ensures { option_map (λ word. word.now) result ≡ first_of name.now (rows_in matches.now) }
{
    matches.get_str(name)
}

pub(crate) fn read_number(matches: &ArgMatches<'_>, name: &str) -> Option<u32>
    ensures { FindsOne result (λ n. IsGiven (rows_in matches.now) (Number name.now 32 n)) }
{
    matches.get_one::<u32>(name)
}

pub(crate) fn read_small(matches: &ArgMatches<'_>, name: &str) -> Option<u16>
    ensures { FindsOne result (λ n. IsGiven (rows_in matches.now) (Number name.now 16 n)) }
{
    matches.get_one::<u16>(name)
}

pub(crate) fn read_flag(matches: &ArgMatches<'_>, name: &str) -> bool
    ensures { IsGiven (rows_in matches.now) (Flag name.now result) }
{
    matches.get_flag(name)
}

/// Whether the flag is given.
pub(crate) fn is_set(matches: &ArgMatches<'_>, name: &str) -> bool
    ensures given { result ≡ true → first_of name.now (rows_in matches.now) ≡ Some (codes "true") }
    ensures absent { result ≡ false → first_of name.now (rows_in matches.now) ≢ Some (codes "true") }
{
    match read_word(matches, name) {
        Some(word) => word == "true",
        None => false,
    }
}
