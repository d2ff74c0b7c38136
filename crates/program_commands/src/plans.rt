//! The operands of the commands that find edits for a bank.
ghost use Rattle.std.specs.Prelude.{◌≡◌, IfOk, codes, false, true};
ghost use Rattle.clap.specs.Words.{first_of};
ghost use Rattle.program_commands.specs.Words.{copy_operands, keep_operands, kept_operands, member_operands};
ghost use Rattle.program_commands.specs.Words.{merge_operands, plan_operands, rows_in, take_operands};
ghost use Rattle.program_commands.specs.Words.{is_played, tidy_operands, AreGiven, FindsOne, Flag};
ghost use Rattle.program_commands.specs.Words.{IsGiven, NotBoth};

use crate::names::read_optional_name;
use crate::paths::{read_input, read_optional_output, read_output};
use crate::presets::{read_optional_preset, read_values};
use crate::words::{is_set, read_flag, read_number, read_small, read_word};
use clap::ArgMatches;
use plan_presets::{CopiedMember, PresetNumbers, TakenPreset};
use sf_base::Name20;
use std::alloc::{AllocError, Global};

/// The operands of a command that finds edits.
#[derive(Clone, Copy)]
pub struct PlanPaths<'a> {
    pub input: &'a str,
    pub out: &'a str,
    pub undo: &'a str,
    /// Whether the script of the edits is printed, and nothing is saved.
    pub dry_run: bool,
    /// Where the script of the edits is saved, if it is.
    pub script: Option<&'a str>,
    /// Whether that script has no comments.
    pub no_comments: bool,
    /// Whether the two scripts may replace banks.
    pub force: bool,
}

/// The zones of the presets that notes play.
#[derive(Clone, Copy)]
pub enum Zones {
    All,
    /// Only those that one of the notes selects.
    Played,
}

/// What `keep` keeps.
#[derive(Drop)]
pub enum Kept<'a> {
    /// The presets that the notes of this list play, with these zones.
    Notes(&'a str, Zones),
    /// The presets with these numbers.
    Presets(Vec<PresetNumbers>),
}

/// The operands of `keep`.
#[derive(Drop)]
pub struct KeepPaths<'a> {
    pub paths: PlanPaths<'a>,
    pub kept: Kept<'a>,
}

/// The operands of `take`.
#[derive(Drop)]
pub struct TakePaths<'a> {
    pub paths: PlanPaths<'a>,
    /// The bank that the presets are copied from.
    pub from: &'a str,
    pub presets: Vec<TakenPreset>,
}

/// The operands of `merge`.
#[derive(Clone, Copy)]
pub struct MergePaths<'a> {
    pub paths: PlanPaths<'a>,
    /// The bank that is added.
    pub from: &'a str,
    /// What is added to the bank number of each of its presets.
    pub shift: u16,
}

/// The operands of `copy`.
#[derive(Clone, Copy)]
pub struct CopyPaths<'a> {
    pub paths: PlanPaths<'a>,
    pub member: CopiedMember,
    /// The name that the copy gets, if it is given.
    pub name: Option<Name20>,
}

/// The operands of `tidy`.
#[derive(Clone, Copy)]
pub struct TidyPaths<'a> {
    pub paths: PlanPaths<'a>,
    /// Whether equal samples and equal instruments are joined too.
    pub merge: bool,
}

/// Returns the operands of a command that finds edits, if the words give them.
pub(crate) fn read_plan<'a>(matches: &ArgMatches<'a>) -> Option<PlanPaths<'a>>
    ensures { FindsOne result (λ paths. AreGiven (rows_in matches.now) (plan_operands paths)) }
{
    if saves_in_dry_run(matches) {
        return None;
    }
    Some(PlanPaths {
        input: read_input(matches, "IN")?,
        out: read_output(matches, "OUT")?,
        undo: read_output(matches, "UNDO")?,
        dry_run: read_flag(matches, "dry-run"),
        script: read_optional_output(matches, "script"),
        no_comments: read_flag(matches, "no-comments"),
        force: read_flag(matches, "force"),
    })
}

/// Whether the script of the edits is to be saved in a dry run, which saves nothing.
pub(crate) fn saves_in_dry_run(matches: &ArgMatches<'_>) -> bool
    ensures both { result ≡ true → IsGiven (rows_in matches.now) (NotBoth (codes "script") (codes "dry-run")) → ⊥ }
    ensures apart { result ≡ false → IsGiven (rows_in matches.now) (NotBoth (codes "script") (codes "dry-run")) }
{
    read_word(matches, "script").is_some() && is_set(matches, "dry-run")
}

/// Returns the operands of `keep`, if the words give them.
pub(crate) fn read_keep<'a>(
    alloc: Global,
    matches: &ArgMatches<'a>,
) -> Result<Option<KeepPaths<'a>>, AllocError>
    ensures { IfOk result (λ found. FindsOne found (λ keep. AreGiven (rows_in matches.now) (keep_operands keep))) }
{
    let Some(paths) = read_plan(matches) else {
        return Ok(None);
    };
    let found = read_kept(alloc, matches)?;
    match found {
        Some(kept) => Ok(Some(KeepPaths { paths, kept })),
        None => Ok(None),
    }
}

// Returns what `keep` keeps, if exactly one of the two options names it.
fn read_kept<'a>(alloc: Global, matches: &ArgMatches<'a>) -> Result<Option<Kept<'a>>, AllocError>
    ensures { IfOk result (λ found. FindsOne found (λ kept. AreGiven (rows_in matches.now) (kept_operands kept))) }
{
    let notes = read_input(matches, "notes");
    let preset = read_word(matches, "preset");
    match (notes, preset) {
        (Some(notes), None) => Ok(Some(Kept::Notes(notes, read_zones(matches)))),
        (Some(_), Some(_)) => Ok(None),
        (None, _) => read_kept_presets(alloc, matches),
    }
}

// Returns the zones that are kept.
fn read_zones(matches: &ArgMatches<'_>) -> Zones
    ensures { IsGiven (rows_in matches.now) (Flag (codes "zones") (is_played result)) }
{
    if read_flag(matches, "zones") {
        Zones::Played
    } else {
        Zones::All
    }
}

// Returns the presets that are kept where no notes are given, nor the flag for their zones.
fn read_kept_presets<'a>(
    alloc: Global,
    matches: &ArgMatches<'_>,
) -> Result<Option<Kept<'a>>, AllocError>
    requires { first_of (codes "notes") (rows_in matches.now) ≡ None }
    ensures { IfOk result (λ found. FindsOne found (λ kept. AreGiven (rows_in matches.now) (kept_operands kept))) }
{
    if is_set(matches, "zones") {
        return Ok(None);
    }
    let found = read_values(alloc, matches, "preset")?;
    match found {
        Some(presets) => Ok(Some(Kept::Presets(presets))),
        None => Ok(None),
    }
}

/// Returns the operands of `take`, if the words give them.
pub(crate) fn read_take<'a>(
    alloc: Global,
    matches: &ArgMatches<'a>,
) -> Result<Option<TakePaths<'a>>, AllocError>
    ensures { IfOk result (λ found. FindsOne found (λ take. AreGiven (rows_in matches.now) (take_operands take))) }
{
    let Some(paths) = read_plan(matches) else {
        return Ok(None);
    };
    let Some(from) = read_input(matches, "FROM") else {
        return Ok(None);
    };
    let named = read_values(alloc, matches, "preset")?;
    match named {
        Some(presets) => Ok(Some(TakePaths {
            paths,
            from,
            presets,
        })),
        None => Ok(None),
    }
}

/// Returns the operands of `merge`, if the words give them.
pub(crate) fn read_merge<'a>(matches: &ArgMatches<'a>) -> Option<MergePaths<'a>>
    ensures { FindsOne result (λ merge. AreGiven (rows_in matches.now) (merge_operands merge)) }
{
    Some(MergePaths {
        paths: read_plan(matches)?,
        from: read_input(matches, "FROM")?,
        shift: read_small(matches, "shift")?,
    })
}

/// Returns the operands of `copy`, if the words give them.
pub(crate) fn read_copy<'a>(matches: &ArgMatches<'a>) -> Option<CopyPaths<'a>>
    ensures { FindsOne result (λ copy. AreGiven (rows_in matches.now) (copy_operands copy)) }
{
    Some(CopyPaths {
        paths: read_plan(matches)?,
        member: read_member(matches)?,
        name: read_optional_name(matches, "name")?,
    })
}

// Returns what is copied. Only a preset can get numbers.
fn read_member(matches: &ArgMatches<'_>) -> Option<CopiedMember>
    ensures { FindsOne result (λ member. AreGiven (rows_in matches.now) (member_operands member)) }
{
    let word = read_word(matches, "MEMBER")?;
    let number = read_number(matches, "N")?;
    let numbers = read_optional_preset(matches, "as")?;
    if word == "preset" {
        Some(CopiedMember::Preset(number, numbers))
    } else if numbers.is_some() {
        None
    } else if word == "inst" {
        Some(CopiedMember::Inst(number))
    } else if word == "sample" {
        Some(CopiedMember::Sample(number))
    } else {
        None
    }
}

/// Returns the operands of `tidy`, if the words give them.
pub(crate) fn read_tidy<'a>(matches: &ArgMatches<'a>) -> Option<TidyPaths<'a>>
    ensures { FindsOne result (λ tidy. AreGiven (rows_in matches.now) (tidy_operands tidy)) }
{
    Some(TidyPaths {
        paths: read_plan(matches)?,
        merge: read_flag(matches, "merge"),
    })
}
