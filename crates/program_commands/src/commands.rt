//! The program's commands, described for clap.
ghost use Rattle.std.specs.Prelude.{◌≡◌, IfOk, IfSome, false, fold, map};
ghost use Rattle.clap.specs.Words.{app_of, new_app, rule_of, shape_of, with_subcommand};
ghost use Rattle.program_commands.specs.Commands.{argument_of, command_in, commands_from_map, commands_to_live};
ghost use Rattle.program_commands.specs.Commands.{program_app, rule_for, rule_for_option};
ghost use Rattle.program_commands.specs.Commands.{rule_for_positional, rule_for_required, shape_for};
ghost use Rattle.program_commands.specs.Commands.{AreWordParsers, IsSfbankApp};

use clap::builder::ValueParser;
use clap::{Arg, ArgAction, Command, value_parser};
use std::alloc::{AllocError, Global};

/// The program's name in help and in errors, whatever path it was started by.
const NAME: &str = "sfbank";

/// The note on paths in help.
const STANDARD_FILES: &str =
    "Where a file is read, - is the standard input; where one is written, the standard output.";

/// The default minor version of an empty bank.
const DEFAULT_MINOR: &str = "4";

/// By how much `merge` shifts the bank numbers of presets by default.
const DEFAULT_SHIFT: &str = "0";

/// The usage of `import`, whose last two paths are outputs.
const IMPORT_USAGE: &str = "sfbank import [OPTIONS] <IN> <WAVE>... <OUT> <UNDO>
       sfbank import [OPTIONS] --kit <TABLE> <IN> <OUT> <UNDO>";

/// The usage of `wave`, which writes one sample or all.
const WAVE_USAGE: &str = "sfbank wave [--force] [--pair] <IN> <S> <OUT>
       sfbank wave [--force] [--instrument <N>] --all <FOLDER> <IN>";

/// The words for a preset, an instrument and a sample.
static MEMBERS: [&str; 3] = ["preset", "inst", "sample"];

/// The parsers of operands that are one of some words.
#[derive(Clone, Copy)]
struct WordParsers<'a> {
    members: ValueParser<'a>,
}

/// A command, with its operands in the order of its words. `--explain`, which every command has, isn't among them.
struct Entry {
    name: &'static str,
    about: &'static str,
    /// The usage in help and in errors, if it isn't that of the operands.
    usage: Option<&'static str>,
    operands: &'static [Operand],
    example: &'static str,
}

/// An operand of a command, with its name and its help text.
#[derive(Clone, Copy)]
enum Operand {
    /// A word, required.
    Word(&'static str, &'static str),
    /// A path, required.
    Path(&'static str, &'static str),
    /// Paths after all others, at least one.
    Paths(&'static str, &'static str),
    /// A path, optional, after the required ones.
    OptionalPath(&'static str, &'static str),
    /// A 32-bit number, required.
    Number(&'static str, &'static str),
    /// A 32-bit number, optional, after the required operands.
    OptionalNumber(&'static str, &'static str),
    /// `preset`, `inst` or `sample`, required.
    Member(&'static str, &'static str),
    /// `--NAME`, optional.
    Flag(&'static str, &'static str),
    /// `--NAME VALUE` with a 16-bit number, optional, with the name of its value, its default and its help text.
    Small(&'static str, &'static str, &'static str, &'static str),
    /// `--NAME VALUE`, optional, with the name of its value and its help text.
    Single(&'static str, &'static str, &'static str),
    /// `--NAME VALUE`, any number of times, with the name of its value and its help text.
    Repeated(&'static str, &'static str, &'static str),
    /// `--NAME VALUE ..`, optional, with the names of its values, two or more, and its help text.
    Together(&'static str, &'static [&'static str], &'static str),
}

/// The flag that lets OUT replace a bank.
const FORCE: Operand = Operand::Flag("force", "Writes OUT even if a bank is there");

/// The flag that lets `unpack` write into a folder that is there.
const FOLDER_FORCE: Operand = Operand::Flag(
    "force",
    "Writes into FOLDER even if it is there, and replaces files in it",
);

/// The flag that lets UNDO replace a bank.
const UNDO_FORCE: Operand = Operand::Flag("force", "Writes UNDO even if a bank is there");

/// The flag that lets UNDO and the script of the edits replace banks.
const PLAN_FORCE: Operand = Operand::Flag("force", "Writes UNDO and FILE even if a bank is there");

/// The options of reading a recording.
const CHANNEL: Operand = Operand::Single(
    "channel",
    "N",
    "Reads this channel, counted from 1, as mono; needed where there are more than two",
);

const KEY: Operand = Operand::Single(
    "key",
    "K",
    "Sets this root key, 0 to 127, in place of the recording's",
);

const DITHER: Operand = Operand::Single(
    "dither",
    "SEED",
    "Dithers samples of more than 16 bits, by random numbers from this seed",
);

/// The flag of every command.
const EXPLAIN: Operand = Operand::Flag(
    "explain",
    "Follows the line of a fault by its explanation, as on a terminal",
);

/// The flag that saves nothing.
const DRY_RUN: Operand = Operand::Flag("dry-run", "Prints the script of edits, and saves nothing");

/// The option that saves the script of the edits.
const SCRIPT: Operand = Operand::Single("script", "FILE", "Saves the script of edits too");

/// The flag of the commands that write scripts.
const NO_COMMENTS: Operand = Operand::Flag(
    "no-comments",
    "Writes no comments that name what the numbers on a line mean",
);

/// The flag of the commands that play.
const REPORT: Operand = Operand::Flag(
    "report",
    "Reports silent notes, the peak and clipping at the end, as on a terminal",
);

/// The flag that lets the outputs of `live` replace banks.
const LIVE_FORCE: Operand = Operand::Flag(
    "force",
    "Writes PCM, and UNDO of each save, even if a bank is there",
);

/// The commands up to `live`. One table of all would be too long to be proved.
static COMMANDS_TO_LIVE: [Entry; 9] = [
    Entry {
        name: "apply",
        about: "Runs a script of edits on a bank, and writes its undo script",
        usage: None,
        operands: &[
            UNDO_FORCE,
            Operand::Flag(
                "neutral",
                "Accepts only edits of the thirteen neutral forms, which never change the sound",
            ),
            Operand::Flag("no-undo", "Writes no undo script; UNDO is left out"),
            Operand::Path("IN", "The bank to edit"),
            Operand::Path("SCRIPT", "The edits, one a line"),
            Operand::Path("OUT", "Where the edited bank is written; may be IN"),
            Operand::OptionalPath("UNDO", "Where the undo script is written"),
        ],
        example: "Example: sfbank apply organ.sf2 edits.txt edited.sf2 undo.txt",
    },
    Entry {
        name: "canon",
        about: "Writes a bank in its canonical form",
        usage: None,
        operands: &[
            Operand::Path("IN", "The bank to read"),
            Operand::Path("OUT", "Where its canonical file is written; may be IN"),
        ],
        example: "Example: sfbank canon organ.sf2 tidy.sf2",
    },
    Entry {
        name: "check",
        about: "Lists what is probably a mistake in a bank, each with the edit that would repair it",
        usage: None,
        operands: &[
            Operand::Flag("strict", "Ends with status 7 if there is anything to list"),
            Operand::Path("IN", "The bank to check"),
        ],
        example: "Example: sfbank check organ.sf2",
    },
    Entry {
        name: "copy",
        about: "Copies a preset, an instrument or a sample to the end of its list",
        usage: None,
        operands: &[
            Operand::Single("name", "NAME", "Gives the copy this name"),
            Operand::Single(
                "as",
                "BANK:NUMBER",
                "Gives the copy of a preset these numbers",
            ),
            DRY_RUN,
            SCRIPT,
            NO_COMMENTS,
            PLAN_FORCE,
            Operand::Path("IN", "The bank to copy in"),
            Operand::Member("MEMBER", "What to copy"),
            Operand::Number("N", "The number that `show` lists it by"),
            Operand::Path("OUT", "Where the larger bank is written; may be IN"),
            Operand::Path("UNDO", "Where the undo script is written"),
        ],
        example: "Example: sfbank copy --as 8:24 organ.sf2 preset 0 larger.sf2 undo.txt",
    },
    Entry {
        name: "diff",
        about: "Writes a script that turns bank A into bank B",
        usage: None,
        operands: &[
            NO_COMMENTS,
            FORCE,
            Operand::Path("A", "The first bank"),
            Operand::Path("B", "The second bank, of the same minor version"),
            Operand::Path("OUT", "Where the script is written"),
        ],
        example: "Example: sfbank diff organ.sf2 edited.sf2 edits.txt",
    },
    Entry {
        name: "explain",
        about: "Explains a fault or a refusal and what to do about it, or lists the generators",
        usage: None,
        operands: &[Operand::Word(
            "TOPIC",
            "The number or the name in the line of a fault, or: generators",
        )],
        example: "Example: sfbank explain 41",
    },
    Entry {
        name: "import",
        about: "Adds recordings to a bank as its last samples, and an instrument that plays them",
        usage: Some(IMPORT_USAGE),
        operands: &[
            Operand::Single(
                "name",
                "NAME",
                "Gives the sample this name; for stereo its first 18 bytes",
            ),
            Operand::Single(
                "kit",
                "TABLE",
                "Adds the kit of this table; a line is FILE KEY[..KEY] [LOW..HIGH] [root KEY] [pan P] [class N]",
            ),
            Operand::Single(
                "instrument",
                "NAME",
                "Adds an instrument of this name, with a zone for each recording or line",
            ),
            Operand::Together(
                "preset",
                &["BANK:NUMBER", "NAME"],
                "Adds a preset with these numbers and this name, which plays the instrument",
            ),
            CHANNEL,
            KEY,
            DITHER,
            UNDO_FORCE,
            Operand::Path("IN", "The bank to add to"),
            Operand::Paths(
                "WAVE",
                "The recordings, WAVE files, unless there is a TABLE; the last two paths are always OUT, where the \
                 larger bank is written (it may be IN), and UNDO, where the undo script is written",
            ),
        ],
        example: "Example: sfbank import organ.sf2 flute.wav larger.sf2 undo.txt",
    },
    Entry {
        name: "keep",
        about: "Keeps some presets of a bank, and removes what they don't need",
        usage: None,
        operands: &[
            Operand::Single(
                "notes",
                "NOTES",
                "Keeps the presets that this list of notes plays",
            ),
            Operand::Flag(
                "zones",
                "Removes zones too that none of these notes selects; only with --notes",
            ),
            Operand::Repeated(
                "preset",
                "BANK:NUMBER",
                "Keeps the preset with these numbers; can be given several times",
            ),
            DRY_RUN,
            SCRIPT,
            NO_COMMENTS,
            PLAN_FORCE,
            Operand::Path("IN", "The bank to reduce"),
            Operand::Path("OUT", "Where the smaller bank is written; may be IN"),
            Operand::Path("UNDO", "Where the undo script is written"),
        ],
        example: "Example: sfbank keep --preset 0:24 --preset 0:25 gm.sf2 guitars.sf2 undo.txt",
    },
    Entry {
        name: "live",
        about: "Edits and plays a bank live, by the lines of the standard input",
        usage: None,
        operands: &[
            LIVE_FORCE,
            REPORT,
            Operand::Path("IN", "The bank to begin with"),
            Operand::Path(
                "PCM",
                "Where the frames are written: 44,100 a second, two channels of 16 bits",
            ),
        ],
        example: "Example: sfbank live organ.sf2 >(aplay -f cd)",
    },
];

/// The commands from `map` on.
static COMMANDS_FROM_MAP: [Entry; 13] = [
    Entry {
        name: "map",
        about: "Draws the ranges of a preset or an instrument, or the waveform of a sample, as an SVG picture",
        usage: None,
        operands: &[
            FORCE,
            Operand::Path("IN", "The bank to look at"),
            Operand::Member("MEMBER", "What to draw"),
            Operand::Number("N", "The number that `show` lists it by"),
            Operand::Path("OUT", "Where the picture is written"),
        ],
        example: "Example: sfbank map organ.sf2 preset 0 organ.svg",
    },
    Entry {
        name: "merge",
        about: "Adds all that another bank has after what a bank has",
        usage: None,
        operands: &[
            Operand::Small(
                "shift",
                "BANKS",
                DEFAULT_SHIFT,
                "Adds this to the bank number of each preset of FROM",
            ),
            DRY_RUN,
            SCRIPT,
            NO_COMMENTS,
            PLAN_FORCE,
            Operand::Path("IN", "The bank to add to"),
            Operand::Path("FROM", "The bank to add"),
            Operand::Path("OUT", "Where the larger bank is written; may be IN"),
            Operand::Path("UNDO", "Where the undo script is written"),
        ],
        example: "Example: sfbank merge --shift 8 organ.sf2 strings.sf2 both.sf2 undo.txt",
    },
    Entry {
        name: "new",
        about: "Writes an empty bank",
        usage: None,
        operands: &[
            FORCE,
            Operand::Small(
                "minor",
                "N",
                DEFAULT_MINOR,
                "The minor version of the format, from 0 to 65,535",
            ),
            Operand::Path("OUT", "Where the empty bank is written"),
        ],
        example: "Example: sfbank new empty.sf2",
    },
    Entry {
        name: "pack",
        about: "Makes the bank of a folder that `unpack` wrote",
        usage: None,
        operands: &[
            FORCE,
            Operand::Path(
                "FOLDER",
                "The folder to read; each WAVE file in it must be 16-bit mono, of the rate of its sample",
            ),
            Operand::Path("OUT", "Where the bank of the folder is written"),
        ],
        example: "Example: sfbank pack organ changed.sf2",
    },
    Entry {
        name: "page",
        about: "Writes a bank as an HTML page, with its maps, waveforms and mistakes",
        usage: None,
        operands: &[
            FORCE,
            Operand::Path("IN", "The bank to show"),
            Operand::Path("OUT", "Where the page is written"),
        ],
        example: "Example: sfbank page organ.sf2 organ.html",
    },
    Entry {
        name: "play",
        about: "Plays notes on a bank into a WAVE file",
        usage: None,
        operands: &[
            FORCE,
            REPORT,
            Operand::Path("IN", "The bank to play on"),
            Operand::Path("NOTES", "The notes, one a line"),
            Operand::Path("OUT", "Where the WAVE file is written"),
        ],
        example: "Example: sfbank play organ.sf2 notes.txt notes.wav",
    },
    Entry {
        name: "replace",
        about: "Puts a recording in the place of a sample, or of both samples of a pair",
        usage: None,
        operands: &[
            CHANNEL,
            KEY,
            DITHER,
            UNDO_FORCE,
            Operand::Path("IN", "The bank to edit"),
            Operand::Number("S", "The number that `show` lists the sample by"),
            Operand::Path("WAVE", "The recording, a WAVE file"),
            Operand::Path("OUT", "Where the edited bank is written; may be IN"),
            Operand::Path("UNDO", "Where the undo script is written"),
        ],
        example: "Example: sfbank replace organ.sf2 0 flute.wav edited.sf2 undo.txt",
    },
    Entry {
        name: "script",
        about: "Writes a script that makes the bank from the empty bank of its minor version",
        usage: None,
        operands: &[
            Operand::Flag(
                "no-points",
                "Leaves out the points of samples: to read and compare; it can't be run if a sample has a loop",
            ),
            NO_COMMENTS,
            FORCE,
            Operand::Path("IN", "The bank to read"),
            Operand::Path("OUT", "Where the script is written"),
        ],
        example: "Example: sfbank script organ.sf2 organ.txt",
    },
    Entry {
        name: "show",
        about: "Lists what a bank has, and what was dropped or repaired in reading it",
        usage: None,
        operands: &[
            Operand::Flag("zones", "Lists the zones of each preset and instrument too"),
            Operand::Flag(
                "uses",
                "Counts the zones that use each instrument and sample too",
            ),
            Operand::Path("IN", "The bank to show"),
        ],
        example: "Example: sfbank show --zones organ.sf2",
    },
    Entry {
        name: "take",
        about: "Copies presets of another bank into a bank, with what they need",
        usage: None,
        operands: &[
            Operand::Repeated(
                "preset",
                "BANK:NUMBER[=BANK:NUMBER]",
                "Copies the preset with these numbers, to those after = if given; can be given several times",
            ),
            DRY_RUN,
            SCRIPT,
            NO_COMMENTS,
            PLAN_FORCE,
            Operand::Path("IN", "The bank to copy into"),
            Operand::Path("FROM", "The bank to copy from"),
            Operand::Path("OUT", "Where the larger bank is written; may be IN"),
            Operand::Path("UNDO", "Where the undo script is written"),
        ],
        example: "Example: sfbank take --preset 0:24 --preset 0:25=8:25 organ.sf2 gm.sf2 larger.sf2 undo.txt",
    },
    Entry {
        name: "tidy",
        about: "Removes what a bank doesn't use, and changes no sound",
        usage: None,
        operands: &[
            Operand::Flag("merge", "Joins equal samples and equal instruments too"),
            DRY_RUN,
            SCRIPT,
            NO_COMMENTS,
            PLAN_FORCE,
            Operand::Path("IN", "The bank to tidy"),
            Operand::Path("OUT", "Where the tidied bank is written; may be IN"),
            Operand::Path("UNDO", "Where the undo script is written"),
        ],
        example: "Example: sfbank tidy organ.sf2 tidy.sf2 undo.txt",
    },
    Entry {
        name: "unpack",
        about: "Writes a bank as a folder: a script, and a WAVE file for each sample",
        usage: None,
        operands: &[
            FOLDER_FORCE,
            Operand::Path("IN", "The bank to read"),
            Operand::Path(
                "FOLDER",
                "Where the folder is written: bank.txt, the script, and in samples/ a file NUMBER NAME.wav for each \
                 sample, with _ in NAME for characters that file systems can't have",
            ),
        ],
        example: "Example: sfbank unpack organ.sf2 organ",
    },
    Entry {
        name: "wave",
        about: "Writes a sample of a bank as a WAVE file, or all samples",
        usage: Some(WAVE_USAGE),
        operands: &[
            Operand::Flag(
                "pair",
                "Writes the left and the right sample of its pair, as stereo",
            ),
            Operand::Single(
                "all",
                "FOLDER",
                "Writes all samples into a new folder, and a table of an instrument's zones that `import --kit` reads",
            ),
            Operand::Single(
                "instrument",
                "N",
                "With --all, the number that `show` lists the instrument by; the first if it isn't given",
            ),
            Operand::Flag(
                "force",
                "Writes OUT even if a bank is there, or into FOLDER even if it is there",
            ),
            Operand::Path("IN", "The bank that has the samples"),
            Operand::OptionalNumber("S", "The number that `show` lists the sample by"),
            Operand::OptionalPath("OUT", "Where the WAVE file is written"),
        ],
        example: "Example: sfbank wave organ.sf2 0 sample.wav",
    },
];

/// Describes the program and all its commands.
pub(crate) fn sfbank_command<'a>(alloc: Global) -> Result<Command<'a>, AllocError>
    ensures { IfOk result (λ command. IsSfbankApp (app_of command)) }
{
    let command = bare_program(alloc)?;
    let parsers = word_parsers();
    let begun = with_commands(alloc, command, commands_to_live(), parsers)?;
    with_commands(alloc, begun, commands_from_map(), parsers)
}

/// Describes the command of this name, if there is one, with the usage that it has in the program.
pub(crate) fn command_named<'a>(
    alloc: Global,
    name: &str,
) -> Result<Option<Command<'a>>, AllocError>
    ensures { IfOk result (λ found. IfSome found (λ command. (app_of command).top.name ≡ name.now)) }
{
    let Some(entry) = entry_named(name) else {
        return Ok(None);
    };
    let full_name = format!(in alloc; "{NAME} {name}")?;
    let command = command_of(alloc, entry, word_parsers())?.bin_name(full_name.as_str())?;
    Ok(Some(command))
}

// Returns the command of this name.
fn entry_named(name: &str) -> Option<&'static Entry>
    ensures { IfSome result (λ entry. entry.now.name.now ≡ name.now) }
{
    match entry_in(commands_to_live(), name) {
        Some(entry) => Some(entry),
        None => entry_in(commands_from_map(), name),
    }
}

fn entry_in<'e>(entries: &'e [Entry], name: &str) -> Option<&'e Entry>
    ensures { IfSome result (λ entry. entry.now.name.now ≡ name.now) }
{
    entries.iter().find(|entry| entry.name == name)
}

fn word_parsers<'a>() -> WordParsers<'a>
    ensures { AreWordParsers result }
{
    WordParsers {
        members: ValueParser::from(MEMBERS.as_slice()),
    }
}

// The tables as results of functions, so that each is proved alone.
fn commands_to_live() -> &'static [Entry]
    ensures { map command_in result.now ≡ commands_to_live }
{
    &COMMANDS_TO_LIVE
}

fn commands_from_map() -> &'static [Entry]
    ensures { map command_in result.now ≡ commands_from_map }
{
    &COMMANDS_FROM_MAP
}

/// Describes the program before its commands.
fn bare_program<'a>(alloc: Global) -> Result<Command<'a>, AllocError>
    ensures { IfOk result (λ command. app_of command ≡ program_app) }
{
    let command = Command::new(alloc, NAME).bin_name(NAME)?;
    Ok(
        command
            .version("0.1.0")
            .about("Edits SoundFont 2 banks by scripts, writes their undo scripts, and plays banks")
            .after_help(STANDARD_FILES)
            .subcommand_required(true)
            .arg_required_else_help(true),
    )
}

/// Adds the commands. They get the parsers of words from the caller, so that the contracts can name them.
fn with_commands<'a>(
    alloc: Global,
    mut command: Command<'a>,
    entries: &[Entry],
    parsers: WordParsers<'a>,
) -> Result<Command<'a>, AllocError>
    ensures { IfOk result (λ all. app_of all ≡ fold with_subcommand (app_of command.entry)
        (map (λ entry. shape_for parsers.entry (command_in entry)) entries.now)) }
{
    for entry in entries {
        let subcommand = command_of(alloc, entry, parsers)?;
        command = command.subcommand(subcommand)?;
    }
    Ok(command)
}

fn command_of<'a>(
    alloc: Global,
    entry: &Entry,
    parsers: WordParsers<'a>,
) -> Result<Command<'a>, AllocError>
    ensures { IfOk result (λ command. shape_of command ≡ shape_for parsers.entry (command_in entry.now)) }
{
    let mut command = bare_command(alloc, entry);
    for operand in entry.operands {
        command = command.arg(arg_of(alloc, *operand, parsers))?;
    }
    command.arg(arg_of(alloc, EXPLAIN, parsers))
}

/// Describes a command before its arguments.
fn bare_command<'a>(alloc: Global, entry: &Entry) -> Command<'a>
    ensures { app_of result ≡ new_app entry.now.name.now }
{
    let command = Command::new(alloc, entry.name)
        .about(entry.about)
        .after_help(entry.example);
    match entry.usage {
        Some(usage) => command.override_usage(usage),
        None => command,
    }
}

fn arg_of<'a>(alloc: Global, operand: Operand, parsers: WordParsers<'a>) -> Arg<'a>
    ensures rule { rule_of result ≡ rule_for parsers.entry (argument_of operand) }
    ensures local { result.global ≡ false }
{
    match operand {
        Operand::Word(name, help) => required(alloc, name, help),
        Operand::Path(name, help) => required(alloc, name, help),
        Operand::Paths(name, help) => required(alloc, name, help).action(ArgAction::Append),
        Operand::OptionalPath(name, help) => positional(alloc, name, help),
        Operand::Number(name, help) => required(alloc, name, help).value_parser(value_parser!(u32)),
        Operand::OptionalNumber(name, help) => {
            positional(alloc, name, help).value_parser(value_parser!(u32))
        }
        Operand::Member(name, help) => required(alloc, name, help).value_parser(parsers.members),
        Operand::Flag(name, help) => option(alloc, name, help).action(ArgAction::SetTrue),
        Operand::Small(name, value, default, help) => option(alloc, name, help)
            .value_name(value)
            .action(ArgAction::Set)
            .value_parser(value_parser!(u16))
            .default_value(default),
        Operand::Single(name, value, help) => option(alloc, name, help)
            .value_name(value)
            .action(ArgAction::Set),
        Operand::Repeated(name, value, help) => option(alloc, name, help)
            .value_name(value)
            .action(ArgAction::Append),
        Operand::Together(name, values, help) => option(alloc, name, help)
            .value_names(values)
            .action(ArgAction::Set),
    }
}

/// A required operand.
fn required<'a>(alloc: Global, name: &'static str, help: &'static str) -> Arg<'a>
    ensures rule { rule_of result ≡ rule_for_required name.entry.now }
    ensures local { result.global ≡ false }
{
    positional(alloc, name, help).required(true)
}

/// An operand that is found by its position.
fn positional<'a>(alloc: Global, name: &'static str, help: &'static str) -> Arg<'a>
    ensures rule { rule_of result ≡ rule_for_positional name.entry.now }
    ensures local { result.global ≡ false }
{
    Arg::new(alloc, name).action(ArgAction::Set).help(help)
}

/// An optional operand, written with two hyphens.
fn option<'a>(alloc: Global, name: &'static str, help: &'static str) -> Arg<'a>
    ensures rule { rule_of result ≡ rule_for_option name.entry.now }
    ensures local { result.global ≡ false }
{
    Arg::new(alloc, name).long(name).help(help)
}
