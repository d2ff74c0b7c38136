//! The lines of findings.
ghost use Rattle.std.specs.Prelude.{◌≡◌, ◌++◌};
ghost use Rattle.std.specs.List.{flat_map};
ghost use Rattle.base_outputs.specs.Output.{Puts};
ghost use Rattle.show_findings.specs.declared.lines.Subject.TheVariants as Subject;
ghost use Rattle.show_findings.specs.Texts.{owner_text, place_text};
ghost use Rattle.show_findings.specs.Lines.{finding_line, subject_of, member_text, subject_text};

use crate::finding::Finding;
use crate::messages::put_message;
use crate::repairs::put_repair;
use crate::texts::{put_name, put_numbered, put_owner, put_place};
use bank_core::{Bank, Owner, Place};
use base_outputs::Output;
use base_texts::Text;
use std::io::Write;

/// A line for each finding: the member or the place, what is found, and the edit that repairs it, if one does.
#[derive(Clone, Copy)]
pub struct FindingLines<'t, 'a> {
    pub bank: &'t Bank<'a>,
    pub findings: &'t [Finding],
}

impl Text for FindingLines<'_, '_> {
    ghost bytes = { λ lines. flat_map (finding_line lines.bank.now) lines.findings.now };

    fn put<W: Write>(&self, output: &mut Output<'_, W>) {
        put_findings(self.bank, self.findings, output);
    }
}

fn put_findings<W: Write>(bank: &Bank<'_>, findings: &[Finding], output: &mut Output<'_, W>)
    ensures { Puts W.contents output.old output.new (flat_map (finding_line bank.now) findings.now) }
{
    for finding in findings {
        put_finding(bank, *finding, output);
    }
}

// What a finding is about: a member, with its name, or a place.
#[derive(Clone, Copy)]
pub(crate) enum Subject {
    Preset(u32),
    Instrument(u32),
    Sample(u32),
    Place(Owner, Place),
}

fn put_finding<W: Write>(bank: &Bank<'_>, finding: Finding, output: &mut Output<'_, W>)
    ensures { Puts W.contents output.old output.new (finding_line bank.now finding) }
{
    put_subject(bank, subject_of(finding), output);
    put_message(finding, output);
    put_repair(bank, finding, output);
    output.put(b"\n");
}

#[tactic(auto, unfolding(crate::specs::Lines::subject_of))]
fn subject_of(finding: Finding) -> Subject
    ensures { result ≡ subject_of finding }
{
    match finding {
        Finding::HiddenPreset { preset, .. } | Finding::SilentKeys { preset, .. } => {
            Subject::Preset(preset)
        }
        Finding::UnselectableZone { owner, zone } => Subject::Place(owner, Place::Zone(zone)),
        Finding::OverriddenGenerator { owner, .. } => Subject::Place(owner, Place::Global),
        Finding::OutsideRange { owner, place, .. } => Subject::Place(owner, place),
        Finding::UnusedInstrument { instrument } => Subject::Instrument(instrument),
        Finding::UnusedSample { sample }
        | Finding::OneSidedLink { sample, .. }
        | Finding::ShortLoop { sample, .. }
        | Finding::ClickingLoop { sample, .. }
        | Finding::UnusualRate { sample, .. }
        | Finding::ClippedSample { sample, .. }
        | Finding::SilentSample { sample }
        | Finding::OffsetSample { sample, .. }
        | Finding::EqualSample { sample, .. } => Subject::Sample(sample),
    }
}

// Writes the words of scripts for a member, and its name, or the words for a place.
fn put_subject<W: Write>(bank: &Bank<'_>, subject: Subject, output: &mut Output<'_, W>)
    ensures { Puts W.contents output.old output.new (subject_text bank.now subject) }
{
    match subject {
        Subject::Preset(preset) => put_preset(bank, preset, output),
        Subject::Instrument(instrument) => put_instrument(bank, instrument, output),
        Subject::Sample(sample) => put_sample(bank, sample, output),
        Subject::Place(owner, place) => put_owner_place(owner, place, output),
    }
}

fn put_preset<W: Write>(bank: &Bank<'_>, preset: u32, output: &mut Output<'_, W>)
    ensures { Puts W.contents output.old output.new (subject_text bank.now (Subject.Preset preset)) }
{
    match bank.head(preset) {
        Some(head) => put_member(b"preset ", preset, head.name.bytes(), output),
        None => put_member(b"preset ", preset, b"", output),
    }
}

fn put_instrument<W: Write>(bank: &Bank<'_>, instrument: u32, output: &mut Output<'_, W>)
    ensures { Puts W.contents output.old output.new (subject_text bank.now (Subject.Instrument instrument)) }
{
    match bank.inst_name(instrument) {
        Some(name) => put_member(b"inst ", instrument, name.bytes(), output),
        None => put_member(b"inst ", instrument, b"", output),
    }
}

fn put_sample<W: Write>(bank: &Bank<'_>, sample: u32, output: &mut Output<'_, W>)
    ensures { Puts W.contents output.old output.new (subject_text bank.now (Subject.Sample sample)) }
{
    match bank.sample(sample) {
        Some(found) => put_member(b"sample ", sample, found.name.bytes(), output),
        None => put_member(b"sample ", sample, b"", output),
    }
}

#[tactic(auto, using(base_outputs::proofs::OutputLaws::puts_then))]
fn put_member<W: Write>(words: &[u8], member: u32, name: &[u8], output: &mut Output<'_, W>)
    ensures { Puts W.contents output.old output.new (member_text words.now member name.now) }
{
    put_numbered(words, member, output);
    put_name(name, output);
}

#[tactic(auto, using(base_outputs::proofs::OutputLaws::puts_then))]
fn put_owner_place<W: Write>(owner: Owner, place: Place, output: &mut Output<'_, W>)
    ensures { Puts W.contents output.old output.new (owner_text owner ++ place_text place) }
{
    put_owner(owner, output);
    put_place(place, output);
}
