//! The script that replaces a bank with another.
ghost use Rattle.std.specs.Prelude.{◌≡◌, ◌<◌, length};
ghost use Rattle.std.specs.List.{flat_map};
ghost use Rattle.base_outputs.specs.Output.{Puts};
ghost use Rattle.bank_parts.specs.declared.texts.InfoId.{InfoId};
ghost use Rattle.bank_parts.specs.Texts as info;
ghost use Rattle.edit_script.specs.Printing.{texts_of};
ghost use Rattle.script_of_bank.specs.BankEdits.{empty_texts};
ghost use Rattle.script_of_bank.specs.LeadsTo.{edits_between};
ghost use Rattle.script_of_bank.specs.BankRemoval.{in_reverse, mono_edits, unlink_edits, reset_edits, resets, removal_edits, removal_lines};

use crate::links::put_set_kind;
use crate::samples::SamplePoints;
use crate::script::put_parts;
use crate::texts::put_set_info;
use bank_core::{Bank, InfoId, Kind, Sample};
use base_outputs::Output;
use base_texts::Text;
use script_tokens::{Piece, put_line};
use std::io::Write;

/// The script that replaces `from` with `to`, which has the same minor version: lines that remove all parts of `from`,
/// from its last preset to its first text, and then the lines that create `to`.
#[derive(Clone, Copy)]
pub struct Replacement<'t, 'a, 'b> {
    pub from: &'t Bank<'a>,
    pub to: &'t Bank<'b>,
}

impl Text for Replacement<'_, '_, '_> {
    ghost bytes = { λ script. texts_of (edits_between script.from.now script.to.now) };

    fn put<W: Write>(&self, output: &mut Output<'_, W>) {
        put_removal_edits(self.from, output);
        put_parts(self.to, SamplePoints::Kept, output);
    }
}

// Writes the lines that remove all parts of a bank.
fn put_removal_edits<W: Write>(bank: &Bank<'_>, output: &mut Output<'_, W>)
    ensures puts { Puts W.contents output.old output.new (texts_of (removal_edits bank.now)) }
    ensures engine { 0 < length bank.now.texts.engine }
{
    put_removals(b"remove-preset", bank.presets().len(), output);
    put_removals(b"remove-inst", bank.instruments().len(), output);
    put_unlinks(bank.samples(), output);
    put_removals(b"remove-sample", bank.samples().len(), output);
    put_resets(bank, output);
}

// Writes a line of this word for each of `count` members, from the last to the first.
#[tactic(auto, using(base_outputs::proofs::OutputLaws::putting_start))]
fn put_removals<W: Write>(word: &[u8], count: usize, output: &mut Output<'_, W>)
    ensures { Puts W.contents output.old output.new (removal_lines word.now count) }
{
    for done in 0..count {
        let number = count - done - 1;
        put_line(word, &[Piece::Number(number as u64)], output);
    }
}

// Writes a line for each sample that has a link, from the last to the first.
fn put_unlinks<W: Write>(samples: &[Sample<'_>], output: &mut Output<'_, W>)
    ensures { Puts W.contents output.old output.new (texts_of (in_reverse unlink_edits 0 samples.now)) }
{
    for done in 0..samples.len() {
        let number = samples.len() - done - 1;
        let sample = &samples[number];
        put_unlink(number as u64, sample.kind, output);
    }
}

// Writes the line that removes a link; a mono sample has none.
fn put_unlink<W: Write>(number: u64, kind: Kind, output: &mut Output<'_, W>)
    ensures { Puts W.contents output.old output.new (texts_of (mono_edits number kind)) }
{
    match kind {
        Kind::Mono => {}
        Kind::Right(_) | Kind::Left(_) | Kind::Linked(_) => {
            put_set_kind(number, Kind::Mono, output);
        }
    }
}

// Writes a line for each text that is not empty, from the last to the first.
fn put_resets<W: Write>(bank: &Bank<'_>, output: &mut Output<'_, W>)
    ensures { Puts W.contents output.old output.new (texts_of (resets bank.now.texts)) }
{
    let last_first = [
        InfoId::Software,
        InfoId::Comment,
        InfoId::Copyright,
        InfoId::Product,
        InfoId::Engineers,
        InfoId::Date,
        InfoId::Name,
        InfoId::Engine,
    ];
    put_each_reset(bank, &last_first, output);
}

// Writes a line for each of these texts that is not empty.
#[tactic(auto, using(base_outputs::proofs::OutputLaws::putting_start, base_outputs::proofs::OutputLaws::putting_end))]
fn put_each_reset<W: Write>(bank: &Bank<'_>, ids: &[InfoId], output: &mut Output<'_, W>)
    ensures { Puts W.contents output.old output.new (flat_map (λ (id : InfoId). texts_of (reset_edits id (info.text_of bank.now.texts id))) ids.now) }
{
    for id in ids {
        put_reset(*id, bank.info(*id), output);
    }
}

// Writes the line that resets a text; an empty text has none.
fn put_reset<W: Write>(id: InfoId, text: &[u8], output: &mut Output<'_, W>)
    ensures { Puts W.contents output.old output.new (texts_of (reset_edits id text.now)) }
{
    if !text.is_empty() {
        put_set_info(id, first_text(id), output);
    }
}

// The value of a text in the empty bank.
fn first_text(id: InfoId) -> &'static [u8]
    ensures { result.now ≡ info.text_of empty_texts id }
{
    match id {
        InfoId::Engine => b"EMU8000",
        _ => b"",
    }
}
