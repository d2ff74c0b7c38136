//! The edits that list a bank.
ghost use Rattle.std.specs.Prelude.{◌≡◌, ◌≤◌, ◌++◌, ◌^◌, length, IfOk, OnOk};
ghost use Rattle.std.specs.List.{flat_map};
ghost use Rattle.bank_parts.specs.declared.texts.InfoId.{InfoId};
ghost use Rattle.bank_parts.specs.declared.parts.Kind.TheVariants.{Mono};
ghost use Rattle.bank_parts.specs.Texts as info;
ghost use Rattle.bank_changes.specs.Points.{with_kind};
ghost use Rattle.script_of_bank.specs.BankEdits.{in_turn, text_edits, texts_edits, kind_edits, link_edits};
ghost use Rattle.script_of_bank.specs.BankEdits.{edits_of_bank};
ghost use Rattle.script_of_bank.specs.BankScript.{selected_points, selected_sample, selected_edits, with_points};

use crate::owners::list_owners;
use bank_core::{Bank, InfoId, Kind, Sample};
use edit_forms::{Edit, PointStep, SampleStep, Step, TextStep};
use sample_view::Points;
use script_grammar::HasWord;
use script_of_bank::SamplePoints;
use sf_base::{BorrowedBytes, OutOfMemory};
use std::alloc::Global;

/// The edits of a bank's script, in its order. With points they lead from the empty bank of the same minor version to the
/// bank. They borrow the bank's points and texts.
pub fn listed_edits<'a>(
    alloc: Global,
    bank: &Bank<'a>,
    points: SamplePoints,
) -> Result<Vec<Edit<'a>>, OutOfMemory>
    ensures { IfOk result (λ edits. edits.items ≡ edits_of_bank (with_points points bank.now)) }
{
    let mut edits = Vec::new(alloc);
    list_texts(bank, &mut edits)?;
    list_samples(alloc, bank.samples(), points, &mut edits)?;
    list_links(bank.samples(), &mut edits)?;
    list_owners(alloc, bank.instruments(), &mut edits)?;
    list_owners(alloc, bank.presets(), &mut edits)?;
    Ok(edits)
}

// ---- texts

// Appends an edit for each text that is not empty.
fn list_texts<'a>(bank: &Bank<'a>, edits: &mut Vec<Edit<'a>>) -> Result<(), OutOfMemory>
    ensures { OnOk result (edits.new.items ≡ edits.old.items ++ texts_edits bank.now.texts) }
{
    list_each_text(bank, InfoId::all(), edits)
}

// The same for each of these texts.
fn list_each_text<'a>(
    bank: &Bank<'a>,
    ids: &[InfoId],
    edits: &mut Vec<Edit<'a>>,
) -> Result<(), OutOfMemory>
    ensures { OnOk result (edits.new.items ≡ edits.old.items
        ++ flat_map (λ (id : InfoId). text_edits id (info.text_of bank.now.texts id)) ids.now) }
{
    for id in ids {
        list_text(*id, bank.info(*id), edits)?;
    }
    Ok(())
}

// Appends the edit that sets a text; an empty text has none.
fn list_text<'a>(id: InfoId, text: &'a [u8], edits: &mut Vec<Edit<'a>>) -> Result<(), OutOfMemory>
    ensures { OnOk result (edits.new.items ≡ edits.old.items ++ text_edits id text.now) }
{
    if !text.is_empty() {
        let text = BorrowedBytes::new(text);
        edits.push(Edit::One(Step::Text(TextStep::SetInfo { id, text })))?;
    }
    Ok(())
}

// ---- samples

// Appends an edit for each sample, without its link.
fn list_samples<'a>(
    alloc: Global,
    samples: &[Sample<'a>],
    points: SamplePoints,
    edits: &mut Vec<Edit<'a>>,
) -> Result<(), OutOfMemory>
    requires { length samples.now ≤ 2 ^ 32 }
    ensures { OnOk result (edits.new.items ≡ edits.old.items ++ in_turn (selected_edits points) 0 samples.now) }
{
    for (number, sample) in samples.iter().enumerate() {
        list_sample(alloc, number as u32, sample, points, edits)?;
    }
    Ok(())
}

// Appends the edit that adds a sample.
fn list_sample<'a>(
    alloc: Global,
    at: u32,
    sample: &Sample<'a>,
    points: SamplePoints,
    edits: &mut Vec<Edit<'a>>,
) -> Result<(), OutOfMemory>
    ensures { OnOk result (edits.new.items ≡ edits.old.items ++ selected_edits points at sample.now) }
{
    let sample = mono_copy(alloc, sample, points)?;
    edits.push(Edit::One(Step::Sample(SampleStep::AddSample { at, sample })))?;
    Ok(())
}

// A sample with its points or without, and as mono.
fn mono_copy<'a>(
    alloc: Global,
    sample: &Sample<'a>,
    points: SamplePoints,
) -> Result<Sample<'a>, OutOfMemory>
    ensures { IfOk result (λ copy. copy ≡ with_kind Mono (selected_sample points sample.now)) }
{
    Ok(Sample {
        name: sample.name,
        points: selected_points(alloc, &sample.points, points)?,
        looped: sample.looped,
        rate: sample.rate,
        key: sample.key,
        correction: sample.correction,
        kind: Kind::Mono,
    })
}

// The points, or none.
fn selected_points<'a>(
    alloc: Global,
    points: &Points<'a>,
    selected: SamplePoints,
) -> Result<Points<'a>, OutOfMemory>
    ensures { IfOk result (λ copy. copy ≡ selected_points selected points.now) }
{
    match selected {
        SamplePoints::Kept => points.copy(alloc),
        SamplePoints::LeftOut => Ok(Points::empty(alloc)),
    }
}

// ---- links

// Appends an edit for each sample that has a link.
fn list_links<'a>(samples: &[Sample<'_>], edits: &mut Vec<Edit<'a>>) -> Result<(), OutOfMemory>
    requires { length samples.now ≤ 2 ^ 32 }
    ensures { OnOk result (edits.new.items ≡ edits.old.items ++ in_turn link_edits 0 samples.now) }
{
    for (number, sample) in samples.iter().enumerate() {
        list_link(number as u32, sample.kind, edits)?;
    }
    Ok(())
}

// Appends the edit that sets the link of a sample; a mono sample has none.
fn list_link<'a>(number: u32, kind: Kind, edits: &mut Vec<Edit<'a>>) -> Result<(), OutOfMemory>
    ensures { OnOk result (edits.new.items ≡ edits.old.items ++ kind_edits number kind) }
{
    match kind {
        Kind::Mono => {}
        Kind::Right(_) | Kind::Left(_) | Kind::Linked(_) => {
            edits.push(Edit::One(Step::Points(number, PointStep::SetKind { kind })))?;
        }
    }
    Ok(())
}
