//! The explanation of each fault and refusal.
ghost use Rattle.std.specs.Prelude.{◌≡◌, ◌==◌, ℕ, IfOk, IfSome, IsSome, filter, find, flat_map};
ghost use Rattle.base_outputs.specs.Output.{Puts};
ghost use Rattle.program_explanations.specs.Explanations.{number_of, name_of, IsOfNumber, explanation_text, line_of};
ghost use Rattle.program_explanations.specs.Explanations.{is_named, AreOfName, ExplainInTurn, next_text, explanations_text};
ghost use Rattle.program_explanations.specs.declared.explanations.FaultCode.{FaultCode};

use bank_format::ReadFault;
use bank_validity::Limit;
use base_outputs::{Output, OutputFault};
use base_texts::Text;
use edit_refusals::{Cause, Refusal};
use itoa::Buffer;
use kit_tables::KitFault;
use plan_presets::{PresetFault, PresetNumbers};
use script_notes::NoteFault;
use script_tokens::ScriptFault;
use sf_base::OutOfMemory;
use std::alloc::Global;
use std::io::Write;
use wave_file::WaveFault;

/// A fault or refusal, which has a number and a name.
#[derive(Clone, Copy)]
pub enum FaultCode {
    /// A fault of a bank file.
    Reading(ReadFault),
    /// A fault of a script.
    Script(ScriptFault),
    /// A fault of a note list.
    Notes(NoteFault),
    /// A fault of a table of a kit.
    Table(KitFault),
    /// A fault of a WAVE file.
    Recording(WaveFault),
    /// A rejected output.
    Output(OutputFault),
    /// A refused edit, undo or redo.
    Refused(Refusal),
    /// An edit that is not neutral, where only neutral edits are accepted.
    NotNeutral,
    /// Two banks of different minor versions.
    OtherVersion,
    /// A preset that can't be kept or copied.
    Presets(PresetFault),
    /// A plan that failed.
    PlanFailed,
    /// A folder that is there already, where a new one is made.
    FolderThere,
    /// A bank with findings, where none is accepted.
    HasFindings,
}

/// The explanation of a fault or refusal.
#[derive(Clone, Copy)]
pub struct Explanation {
    /// The number of the fault or refusal.
    pub number: u8,
    /// The name of the fault or refusal.
    pub name: &'static str,
    /// What it means, in one sentence.
    pub meaning: &'static str,
    /// What to do about it.
    pub what_to_do: &'static str,
}

/// Explanations, with an empty line between two.
#[derive(Clone, Copy)]
pub struct Explanations<'t>(pub &'t [Explanation]);

/// Numbers of no special preset.
const ANY_NUMBERS: PresetNumbers = PresetNumbers { bank: 0, number: 0 };

/// One fault or refusal for each number, in the order of the numbers. The fields of a variant have any value.
static ALL: [FaultCode; 77] = [
    FaultCode::Reading(ReadFault::NotRiff),
    FaultCode::Reading(ReadFault::NotSfbk),
    FaultCode::Reading(ReadFault::Truncated),
    FaultCode::Reading(ReadFault::MissingList),
    FaultCode::Reading(ReadFault::MissingChunk),
    FaultCode::Reading(ReadFault::Version),
    FaultCode::Reading(ReadFault::RecordSize),
    FaultCode::Reading(ReadFault::NoTerminal),
    FaultCode::Reading(ReadFault::BagOrder),
    FaultCode::Reading(ReadFault::IndexOutside),
    FaultCode::Reading(ReadFault::BadInstrument),
    FaultCode::Reading(ReadFault::BadSample),
    FaultCode::Reading(ReadFault::SampleRange),
    FaultCode::Reading(ReadFault::SampleType),
    FaultCode::Reading(ReadFault::RomSample),
    FaultCode::Reading(ReadFault::OddSamples),
    FaultCode::Reading(ReadFault::TooMany),
    FaultCode::Refused(Refusal::Of(Cause::NoSuchPreset)),
    FaultCode::Refused(Refusal::Of(Cause::NoSuchInstrument)),
    FaultCode::Refused(Refusal::Of(Cause::NoSuchSample)),
    FaultCode::Refused(Refusal::Of(Cause::NoSuchZone)),
    FaultCode::Refused(Refusal::Of(Cause::NoSuchModulator)),
    FaultCode::Refused(Refusal::Of(Cause::BadPlace)),
    FaultCode::Refused(Refusal::Of(Cause::InUse)),
    FaultCode::Refused(Refusal::Of(Cause::BadGenerator)),
    FaultCode::Refused(Refusal::Of(Cause::NotSet)),
    FaultCode::Refused(Refusal::Of(Cause::BadRange)),
    FaultCode::Refused(Refusal::Of(Cause::SplitOutside)),
    FaultCode::Refused(Refusal::Of(Cause::NotJoinable)),
    FaultCode::Refused(Refusal::Of(Cause::LinkedModulator)),
    FaultCode::Refused(Refusal::Of(Cause::TooShort)),
    FaultCode::Refused(Refusal::Of(Cause::LoopCut)),
    FaultCode::Refused(Refusal::Of(Cause::BadLoop)),
    FaultCode::Refused(Refusal::Of(Cause::BadText)),
    FaultCode::Refused(Refusal::Of(Cause::Full(Limit::Points))),
    FaultCode::Refused(Refusal::OutOfMemory),
    FaultCode::Refused(Refusal::NothingToUndo),
    FaultCode::Refused(Refusal::NothingToRedo),
    FaultCode::Script(ScriptFault::Syntax(1)),
    FaultCode::Script(ScriptFault::Number(1)),
    FaultCode::Script(ScriptFault::Literal(1)),
    FaultCode::Notes(NoteFault::BadNote(1)),
    FaultCode::Notes(NoteFault::TooManyNotes(1)),
    FaultCode::Notes(NoteFault::TooLong(1)),
    FaultCode::Refused(Refusal::GroupRefused(0, Cause::InUse)),
    FaultCode::NotNeutral,
    FaultCode::OtherVersion,
    FaultCode::Recording(WaveFault::NotWave),
    FaultCode::Recording(WaveFault::Truncated),
    FaultCode::Recording(WaveFault::Compressed),
    FaultCode::Recording(WaveFault::NoFormat),
    FaultCode::Recording(WaveFault::SampleBits),
    FaultCode::Recording(WaveFault::ChannelCount),
    FaultCode::Recording(WaveFault::NoData),
    FaultCode::Recording(WaveFault::HalfFrame),
    FaultCode::Recording(WaveFault::ShortSampler),
    FaultCode::Recording(WaveFault::UnityNote),
    FaultCode::Recording(WaveFault::LoopOutside),
    FaultCode::Output(OutputFault::SameFile),
    FaultCode::Output(OutputFault::HoldsBank),
    FaultCode::PlanFailed,
    FaultCode::Presets(PresetFault::Missing(ANY_NUMBERS)),
    FaultCode::Presets(PresetFault::InUse(ANY_NUMBERS)),
    FaultCode::Presets(PresetFault::BankTooHigh(ANY_NUMBERS)),
    FaultCode::Presets(PresetFault::NoneFree(ANY_NUMBERS)),
    FaultCode::Recording(WaveFault::NoSuchChannel),
    FaultCode::Recording(WaveFault::TwoChannels),
    FaultCode::Recording(WaveFault::NotAPair),
    FaultCode::Recording(WaveFault::SidesDiffer),
    FaultCode::Table(KitFault::BadRow(1)),
    FaultCode::Table(KitFault::TooManyRows(1)),
    FaultCode::Table(KitFault::NoRows(1)),
    FaultCode::Recording(WaveFault::NotSixteenBits),
    FaultCode::Recording(WaveFault::OtherRate),
    FaultCode::Recording(WaveFault::ShortForLoop),
    FaultCode::FolderThere,
    FaultCode::HasFindings,
];

impl FaultCode {
    /// Returns its explanation.
    pub fn explanation(self) -> Explanation
        ensures number { result.number ≡ number_of self }
        ensures name { result.name.now ≡ name_of self }
    {
        let (meaning, what_to_do) = self.texts();
        Explanation {
            number: self.number(),
            name: self.name(),
            meaning,
            what_to_do,
        }
    }

    /// Returns its number.
    fn number(self) -> u8
        ensures { result ≡ number_of self }
    {
        match self {
            FaultCode::Reading(fault) => fault.number(),
            FaultCode::Script(fault) => fault.number(),
            FaultCode::Notes(fault) => fault.number(),
            FaultCode::Table(fault) => fault.number(),
            FaultCode::Recording(fault) => fault.number(),
            FaultCode::Output(fault) => fault.number(),
            FaultCode::Refused(why) => why.number(),
            FaultCode::NotNeutral => 50,
            FaultCode::OtherVersion => 51,
            FaultCode::Presets(fault) => fault.number(),
            FaultCode::PlanFailed => 66,
            FaultCode::FolderThere => 81,
            FaultCode::HasFindings => 82,
        }
    }

    /// Returns its name.
    fn name(self) -> &'static str
        ensures { result.now ≡ name_of self }
    {
        match self {
            FaultCode::Reading(fault) => fault.name(),
            FaultCode::Script(fault) => fault.name(),
            FaultCode::Notes(fault) => fault.name(),
            FaultCode::Table(fault) => fault.name(),
            FaultCode::Recording(fault) => fault.name(),
            FaultCode::Output(fault) => fault.name(),
            FaultCode::Refused(why) => why.name(),
            FaultCode::NotNeutral => "NotNeutral",
            FaultCode::OtherVersion => "OtherVersion",
            FaultCode::Presets(fault) => fault.name(),
            FaultCode::PlanFailed => "PlanFailed",
            FaultCode::FolderThere => "FolderThere",
            FaultCode::HasFindings => "HasFindings",
        }
    }

    /// Whether it has this name, but for the case of ASCII letters.
    fn is_named(self, name: &str) -> bool
        ensures { result ≡ is_named name.now self }
    {
        self.name().eq_ignore_ascii_case(name)
    }

    /// Returns what it means, and what to do about it.
    fn texts(self) -> (&'static str, &'static str) {
        match self {
            FaultCode::Reading(fault) => of_reading(fault),
            FaultCode::Script(fault) => of_script(fault),
            FaultCode::Notes(fault) => of_notes(fault),
            FaultCode::Table(fault) => of_table(fault),
            FaultCode::Recording(fault) => of_recording(fault),
            FaultCode::Output(fault) => of_output(fault),
            FaultCode::Refused(why) => of_refusal(why),
            FaultCode::NotNeutral => (
                "The edit has none of the thirteen neutral forms.",
                "Remove the line, or run the script without --neutral.",
            ),
            FaultCode::OtherVersion => (
                "The banks have different minor versions, which no edit changes.",
                "Give A the minor version N: `sfbank script A T`, `sfbank new --minor N NEW`, \
                `sfbank apply NEW T A2 U`; compare A2.",
            ),
            FaultCode::Presets(fault) => of_presets(fault),
            FaultCode::PlanFailed => (
                "The command found no edits that do what it promises: a defect.",
                "Report the bank and the command; no file was changed.",
            ),
            FaultCode::FolderThere => (
                "FOLDER is there already, and files in it could be replaced.",
                "Give a new folder, or add --force to write into this one.",
            ),
            FaultCode::HasFindings => (
                "The bank has what is probably a mistake: each is on a line of the output.",
                "Run the edits after 'repair:' that you agree with, or leave out --strict.",
            ),
        }
    }
}

/// Returns the explanation of the fault or refusal with this number, or `None` where no fault or refusal has it.
#[tactic(auto, using(crate::proofs::AllExplained::all_found))]
pub fn explain(number: u32) -> Option<Explanation>
    ensures known { IfSome result (λ e. IsOfNumber number e.number e.name.now) }
    ensures all { (code : FaultCode) → number_of code ≡ number → IsSome result }
{
    let code = of_number(&ALL, number)?;
    Some(code.explanation())
}

fn of_number(all: &[FaultCode], number: u32) -> Option<FaultCode>
    ensures first { result ≡ find (λ code. number_of code == number) all.now }
    ensures passes { IfSome result (λ code. number_of code ≡ number) }
{
    all.iter()
        .copied()
        .find(|code| code.number() as u32 == number)
}

/// Returns the explanations of all faults and refusals with this name, in the order of their numbers: `Truncated` is a
/// fault of banks and of WAVE files. Capital and small ASCII letters are not distinguished.
pub fn explain_name(alloc: Global, name: &str) -> Result<Vec<Explanation>, OutOfMemory>
    ensures { IfOk result (λ found. AreOfName name.now found.items) }
{
    explain_named(alloc, &ALL, name)
}

fn explain_named(
    alloc: Global,
    all: &[FaultCode],
    name: &str,
) -> Result<Vec<Explanation>, OutOfMemory>
    ensures { IfOk result (λ found. ExplainInTurn (filter (is_named name.now) all.now) found.items) }
{
    let mut found = Vec::new(alloc);
    for code in all {
        if code.is_named(name) {
            found.push(code.explanation())?;
        }
    }
    Ok(found)
}

/// Three lines: the number and name, the meaning, and what to do.
impl Text for Explanation {
    ghost bytes = { explanation_text };

    fn put<W: Write>(&self, output: &mut Output<'_, W>) {
        put_explanation(self, output);
    }
}

/// The three lines of each, with an empty line between two.
impl<'t> Text for Explanations<'t> {
    ghost bytes = { λ explanations. explanations_text explanations.0.now };

    fn put<W: Write>(&self, output: &mut Output<'_, W>) {
        put_explanations(self.0, output);
    }
}

/// Puts explanations into `output`, with an empty line between two.
fn put_explanations<W: Write>(explanations: &[Explanation], output: &mut Output<'_, W>)
    ensures { Puts W.contents output.old output.new (explanations_text explanations.now) }
{
    if let Some((first, others)) = explanations.split_first() {
        put_explanation(first, output);
        put_others(others, output);
    }
}

/// Puts explanations into `output`, each after an empty line.
fn put_others<W: Write>(others: &[Explanation], output: &mut Output<'_, W>)
    ensures { Puts W.contents output.old output.new (flat_map next_text others.now) }
{
    for other in others {
        put_next(other, output);
    }
}

/// Puts an empty line and an explanation into `output`.
#[tactic(auto, using(base_outputs::proofs::OutputLaws::puts_then))]
fn put_next<W: Write>(next: &Explanation, output: &mut Output<'_, W>)
    ensures { Puts W.contents output.old output.new (next_text next.now) }
{
    output.put(b"\n");
    put_explanation(next, output);
}

/// Puts the three lines of an explanation into `output`.
fn put_explanation<W: Write>(explanation: &Explanation, output: &mut Output<'_, W>)
    ensures { Puts W.contents output.old output.new (explanation_text explanation.now) }
{
    let mut digits = Buffer::new();
    output.put(digits.format(explanation.number).as_bytes());
    output.put(b" ");
    put_line(explanation.name, output);
    put_line(explanation.meaning, output);
    put_line(explanation.what_to_do, output);
}

/// Puts a text and a line feed into `output`.
#[tactic(auto, using(base_outputs::proofs::OutputLaws::puts_then))]
pub(crate) fn put_line<W: Write>(text: &str, output: &mut Output<'_, W>)
    ensures { Puts W.contents output.old output.new (line_of text.now) }
{
    output.put(text.as_bytes());
    output.put(b"\n");
}

fn of_reading(fault: ReadFault) -> (&'static str, &'static str) {
    match fault {
        ReadFault::NotRiff => (
            "The file does not begin with RIFF, as each bank does.",
            "Check the order of the files; unpack .zip, .gz or .sfark; if it is empty or a web page, download it again.",
        ),
        ReadFault::NotSfbk => (
            "It is another RIFF file, such as WAVE or DLS.",
            "Give a SoundFont 2 bank first; `sfbank import IN WAVE OUT UNDO` adds WAVE files.",
        ),
        ReadFault::Truncated => (
            "A chunk ends after its container: the file is cut off, or a size is wrong.",
            "Get it again.",
        ),
        ReadFault::MissingList => (
            "One of the lists INFO, sdta and pdta is missing.",
            "Get or export it again.",
        ),
        ReadFault::MissingChunk => (
            "The version, or a list of presets, instruments or samples, is missing.",
            "Get or export it again.",
        ),
        ReadFault::Version => (
            "The major version of the bank is not 2.",
            "Convert it to SoundFont 2, as by Polyphone; .sf3 banks have major version 3.",
        ),
        ReadFault::RecordSize => (
            "A list of presets, instruments or samples ends within a record.",
            "Get or export it again.",
        ),
        ReadFault::NoTerminal => (
            "A list of presets, instruments or samples lacks its terminal record.",
            "Get or export it again.",
        ),
        ReadFault::BagOrder => (
            "A preset, an instrument or a zone begins before its predecessor.",
            "Get or export it again.",
        ),
        ReadFault::IndexOutside => (
            "A preset, an instrument or a zone begins after the end of its list.",
            "Get or export it again.",
        ),
        ReadFault::BadInstrument => (
            "A preset zone names an instrument that the bank does not have.",
            "Correct it in the bank's editor.",
        ),
        ReadFault::BadSample => (
            "An instrument zone names a sample that the bank does not have.",
            "Correct it in the bank's editor.",
        ),
        ReadFault::SampleRange => (
            "A sample ends before its start or after the data.",
            "Get it again; it may be cut off.",
        ),
        ReadFault::SampleType => (
            "A sample is compressed, as in .sf3 banks.",
            "Convert the bank to SoundFont 2 first.",
        ),
        ReadFault::RomSample => (
            "A sample is in the ROM of a sound card, not in the file.",
            "Remove it in the bank's editor.",
        ),
        ReadFault::OddSamples => (
            "The sample data has an odd number of bytes.",
            "Get it again; it may be cut off.",
        ),
        ReadFault::TooMany => (
            "The bank has too many records or points.",
            "Split it into smaller banks.",
        ),
    }
}

fn of_script(fault: ScriptFault) -> (&'static str, &'static str) {
    match fault {
        ScriptFault::Syntax(_) => (
            "A word is wrong, missing or left over.",
            "One edit a line; blanks around braces; names in quotes: see SCRIPT.md.",
        ),
        ScriptFault::Number(_) => (
            "A number is malformed, or out of range.",
            "Whole numbers; ranges as 0..59; generators: `sfbank explain generators`.",
        ),
        ScriptFault::Literal(_) => (
            "A text in quotes or hex digits after x is malformed, or of a wrong length.",
            "Names: 20 ASCII characters at most, or x and hex digits (SCRIPT.md).",
        ),
    }
}

fn of_notes(fault: NoteFault) -> (&'static str, &'static str) {
    match fault {
        NoteFault::BadNote(_) => (
            "The line is not six numbers in their ranges.",
            "Whole numbers: start and length in frames, bank, preset, key, velocity (NOTES.md).",
        ),
        NoteFault::TooManyNotes(_) => (
            "There are more than 65,535 notes.",
            "Split the list, and play each part.",
        ),
        NoteFault::TooLong(_) => (
            "The note ends after frame 100,000,000, about 37 minutes.",
            "Split the list; count the times of the second part from 0.",
        ),
    }
}

fn of_table(fault: KitFault) -> (&'static str, &'static str) {
    match fault {
        KitFault::BadRow(_) => (
            "The line is not FILE KEY[..KEY] [LOW..HIGH] [root KEY] [pan P] [class N].",
            "Quote a path with blanks; keys, LOW and HIGH are 0 to 127, P -500 to 500, N 1 to 127 (RECORDINGS.md).",
        ),
        KitFault::TooManyRows(_) => (
            "There are more than 65,535 lines with a FILE.",
            "Split the table, and import each part.",
        ),
        KitFault::NoRows(_) => (
            "No line of the table has a FILE.",
            "Write a line for each zone, as in `kick.wav 36` (RECORDINGS.md).",
        ),
    }
}

fn of_recording(fault: WaveFault) -> (&'static str, &'static str) {
    match fault {
        WaveFault::NotWave => (
            "The file is no WAVE file.",
            "Convert it by its true type, as in `sox -t mp3 IN -b 16 OUT.wav`.",
        ),
        WaveFault::Truncated => (
            "A chunk ends after the file, which is cut off, or a size is wrong.",
            "Get it again, or convert it: `sox IN -b 16 OUT.wav`.",
        ),
        WaveFault::Compressed => (
            "The samples are compressed, or 64-bit floats.",
            "Convert it: `sox IN -b 16 -e signed-integer OUT.wav`.",
        ),
        WaveFault::NoFormat => (
            "The file has no format chunk of at least 16 bytes.",
            "Convert it: `sox IN -b 16 OUT.wav`.",
        ),
        WaveFault::SampleBits => (
            "The samples have neither 8, 16, 24 nor 32 bits.",
            "Convert it: `sox IN -b 16 OUT.wav`.",
        ),
        WaveFault::ChannelCount => (
            "The file has neither one channel nor two.",
            "Give one by `--channel N`, or select two: `sox IN OUT.wav remix 1 2`.",
        ),
        WaveFault::NoData => (
            "The file has no data chunk, so no sound.",
            "Get it again, or record again.",
        ),
        WaveFault::HalfFrame => (
            "The data ends within a frame.",
            "Convert it: `sox IN -b 16 OUT.wav`.",
        ),
        WaveFault::ShortSampler => (
            "The sampler chunk is too short for its loops.",
            "Remove it: `sox IN -b 16 OUT.wav`; set key and loop by edits.",
        ),
        WaveFault::UnityNote => (
            "The unity note of the sampler chunk is above 127.",
            "Remove it: `sox IN -b 16 OUT.wav`; set key and loop by edits.",
        ),
        WaveFault::LoopOutside => (
            "The loop of the sampler chunk is empty, or outside the data.",
            "Remove it: `sox IN -b 16 OUT.wav`; set key and loop by edits.",
        ),
        WaveFault::NoSuchChannel => (
            "The file has fewer channels than `--channel` says.",
            "Give a channel of it; they count from 1.",
        ),
        WaveFault::TwoChannels => (
            "The recording is stereo, but the sample is mono.",
            "Give one channel: `sox IN OUT.wav remix 1`, or `--channel N` of `replace`.",
        ),
        WaveFault::NotAPair => (
            "The sample is not one of a left and a right sample that link to each other.",
            "Leave `--pair` out, or link two samples by `set-kind`.",
        ),
        WaveFault::SidesDiffer => (
            "The samples of the pair differ in length or in rate.",
            "Export each one without `--pair`.",
        ),
        WaveFault::NotSixteenBits => (
            "The samples of the file don't have 16 bits, as those of a folder must.",
            "Convert it: `sox IN -b 16 OUT.wav`.",
        ),
        WaveFault::OtherRate => (
            "The file has another rate than the sample has in bank.txt.",
            "Change the rate in its line, or the rate of the file: `sox IN -r RATE OUT.wav`.",
        ),
        WaveFault::ShortForLoop => (
            "The loop of the sample's line in bank.txt ends after the last point of the file.",
            "Change the loop in its line, or give a longer file.",
        ),
    }
}

fn of_output(fault: OutputFault) -> (&'static str, &'static str) {
    match fault {
        OutputFault::SameFile => (
            "The output is the same file as an input or another output.",
            "Give each output its own path; only OUT may be IN.",
        ),
        OutputFault::HoldsBank => (
            "The path holds a bank, which the output would replace.",
            "Give another path, or add --force.",
        ),
    }
}

fn of_presets(fault: PresetFault) -> (&'static str, &'static str) {
    match fault {
        PresetFault::Missing(_) => (
            "The bank has no preset with these numbers; `take` looks in FROM.",
            "Give BANK:NUMBER; after a preset's name `sfbank show` lists NUMBER, then BANK.",
        ),
        PresetFault::InUse(_) => (
            "Another preset has these numbers, or two copies would get them.",
            "Give other numbers by `--preset`, `--shift` or `--as`.",
        ),
        PresetFault::BankTooHigh(_) => (
            "The bank number of this preset would be above 65,535.",
            "Give a lower `--shift`.",
        ),
        PresetFault::NoneFree(_) => (
            "All numbers that the copy of this preset may get are in use.",
            "Give numbers by `--as BANK:NUMBER`.",
        ),
    }
}

fn of_refusal(why: Refusal) -> (&'static str, &'static str) {
    match why {
        Refusal::Of(cause) => of_cause(cause),
        Refusal::OutOfMemory => (
            "An allocation failed; nothing was changed.",
            "Close other programs, or add memory.",
        ),
        Refusal::NothingToUndo => (
            "All edits of the session are undone already.",
            "Nothing to do.",
        ),
        Refusal::NothingToRedo => (
            "No edit was undone, or another edit followed.",
            "Nothing to do.",
        ),
        Refusal::GroupRefused(..) => (
            "An edit of the group is refused, so none is made; its index, from 0, and its cause follow.",
            "Correct that edit by its cause.",
        ),
    }
}

fn of_cause(cause: Cause) -> (&'static str, &'static str) {
    match cause {
        Cause::NoSuchPreset => (
            "The bank has no preset of this number.",
            "Use its index in `sfbank show`, not its MIDI number.",
        ),
        Cause::NoSuchInstrument => (
            "The bank has no instrument of this number.",
            "See `sfbank show`; numbers begin at 0.",
        ),
        Cause::NoSuchSample => (
            "The bank has no sample of this number.",
            "See `sfbank show`; numbers begin at 0.",
        ),
        Cause::NoSuchZone => (
            "The preset or instrument has no zone of this number.",
            "See `sfbank show --zones`; numbers begin at 0.",
        ),
        Cause::NoSuchModulator => (
            "The zone has no modulator of this number.",
            "See `sfbank show --zones`; numbers begin at 0.",
        ),
        Cause::BadPlace => (
            "The index is after the end of the list.",
            "At most the list's length; for a move, one less.",
        ),
        Cause::InUse => (
            "A zone uses it, or another sample links to it.",
            "Change or remove its users first; `sfbank show --uses` counts them.",
        ),
        Cause::BadGenerator => (
            "The generator is not allowed there (SoundFont 2.04, section 8.1.2), or has its own edits.",
            "Use set-target for an instrument or a sample; FORMAT.md lists what each level allows.",
        ),
        Cause::NotSet => (
            "The generator is not set there.",
            "Remove the line; `sfbank show --zones` lists what is set.",
        ),
        Cause::BadRange => (
            "The low end is above the high end, or an end is above 127.",
            "Write LO..HI, from 0 to 127.",
        ),
        Cause::SplitOutside => (
            "The split is not inside the range of the zone.",
            "Split above the low end, at most at the high.",
        ),
        Cause::NotJoinable => (
            "The zones differ in more than their ranges, or the ranges do not meet.",
            "Make the zones equal first, or keep both.",
        ),
        Cause::LinkedModulator => (
            "Linked modulators of the zone hold numbers that the edit would change.",
            "Replace the zone by remove-zone and add-zone.",
        ),
        Cause::TooShort => (
            "The trim removes more points than the sample has.",
            "Remove fewer: `sfbank show` counts them.",
        ),
        Cause::LoopCut => (
            "The trim removes points of the loop.",
            "Remove fewer, or move the loop first by set-loop.",
        ),
        Cause::BadLoop => (
            "The loop is empty, or not inside the sample.",
            "Let it begin before its end, within the sample.",
        ),
        Cause::BadText => (
            "The text is too long, has a zero byte, or may not be empty.",
            "Give it a length that SCRIPT.md allows.",
        ),
        Cause::Full(_) => (
            "A file can't count so many members, records or points.",
            "Remove what isn't needed, or split the bank.",
        ),
    }
}
