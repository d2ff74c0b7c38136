//! The list `INFO`: the version and the texts (SoundFont 2.04, section 5).
ghost use Rattle.std.specs.Prelude.{◌≡◌, ◌+◌, ◌<◌, ◌≤◌, ◌%◌, ◌^◌, ◌==◌, ◌++◌, ◌∷◌, [], flat_map, length, replicate, if◌then◌else◌};
ghost use Rattle.base_outputs.specs.Output.{Puts};
ghost use Rattle.riff_chunks.specs.Encoding.{chunk, encode};
ghost use Rattle.bank_format.specs.Canon.{info, version};
ghost use Rattle.bank_format.specs.Ids.{IFIL, INFO};
ghost use Rattle.bank_format.specs.Texts.{text_body};
ghost use Rattle.sf_writer.specs.Info.{text_id, text_bytes, optional_chunk};
ghost use Rattle.sf_writer.specs.Lists.{list_bytes};

use crate::chunks::{HEAD_SIZE, put_chunk, put_form_head};
use bank_core::{Bank, InfoId};
use base_outputs::Output;
use riff_chunks::{ChunkWriter, LIST_ID};
use std::io::Write;

/// The length of the chunk `ifil` with its header.
const VERSION_SIZE: u32 = 12;

/// The texts that are omitted if empty, in file order.
const OPTIONAL_TEXTS: [InfoId; 6] = [
    InfoId::Date,
    InfoId::Engineers,
    InfoId::Product,
    InfoId::Copyright,
    InfoId::Comment,
    InfoId::Software,
];

// The length of all chunks of the list.
#[tactic(auto, using(crate::proofs::TextLaws::info_size))]
pub(crate) fn chunks_size(bank: &Bank<'_>) -> u32
    ensures value { result ≡ length (encode (info bank.now)) }
    ensures small { result < 2 ^ 21 }
{
    let kept = text_size(bank, InfoId::Engine) + text_size(bank, InfoId::Name);
    VERSION_SIZE + kept + texts_size(bank, &OPTIONAL_TEXTS)
}

// The length of the chunks of these texts; empty texts are omitted.
fn texts_size(bank: &Bank<'_>, texts: &[InfoId]) -> u32
    requires { length texts.now ≤ 8 }
    ensures value { result ≡ length (encode (flat_map (optional_chunk bank.now) texts.now)) }
    ensures small { result < 2 ^ 20 }
{
    let mut size = 0;
    for which in texts {
        size += optional_text_size(bank, *which);
    }
    size
}

// The length of a text's chunk; 0 if the text is empty.
#[tactic(auto, using(crate::proofs::TextLaws::texts))]
fn optional_text_size(bank: &Bank<'_>, which: InfoId) -> u32
    ensures value { result ≡ length (encode (optional_chunk bank.now which)) }
    ensures small { result < 2 ^ 17 }
{
    if bank.info(which).is_empty() {
        return 0;
    }
    text_size(bank, which)
}

// The length of a text's chunk.
#[tactic(auto, using(crate::proofs::TextLaws::texts))]
fn text_size(bank: &Bank<'_>, which: InfoId) -> u32
    ensures value { result ≡ length (text_bytes bank.now which) }
    ensures small { result < 2 ^ 17 }
{
    let text = bank.info(which);
    HEAD_SIZE + body_size(text)
}

// The length of a text with its padding.
fn body_size(text: &[u8]) -> u32
    requires { length text.now ≤ 65535 }
    ensures { result ≡ length (text_body text.now) }
{
    (text.len() + text_end(text).len()) as u32
}

// The padding of a text: one zero byte if its length is odd, otherwise two.
fn text_end(text: &[u8]) -> &'static [u8]
    ensures { result.now ≡ replicate (if length text.now % 2 == 1 then 1 else 2) 0 }
{
    if text.len() % 2 == 1 { &[0] } else { &[0, 0] }
}

// The id of a text's chunk.
#[tactic(auto, unfolding(bank_format::specs::Ids::ISNG, bank_format::specs::Ids::INAM, bank_format::specs::Ids::ICRD, bank_format::specs::Ids::IENG, bank_format::specs::Ids::IPRD, bank_format::specs::Ids::ICOP, bank_format::specs::Ids::ICMT, bank_format::specs::Ids::ISFT))]
fn id_of(which: InfoId) -> [u8; 4]
    ensures value { result ≡ text_id which }
    ensures size { length result ≡ 4 }
{
    match which {
        InfoId::Engine => *b"isng",
        InfoId::Name => *b"INAM",
        InfoId::Date => *b"ICRD",
        InfoId::Engineers => *b"IENG",
        InfoId::Product => *b"IPRD",
        InfoId::Copyright => *b"ICOP",
        InfoId::Comment => *b"ICMT",
        InfoId::Software => *b"ISFT",
    }
}

// Puts the list `INFO`.
pub(crate) fn put_info<W: Write>(output: &mut Output<'_, W>, bank: &Bank<'_>, size: u32)
    requires { size ≡ length (INFO ++ encode (info bank.now)) }
    ensures { Puts W.contents output.old output.new (list_bytes INFO (info bank.now)) }
{
    put_form_head(output, LIST_ID, *b"INFO", size);
    put_chunks(output, bank);
}

// Puts the chunks in the list.
fn put_chunks<W: Write>(output: &mut Output<'_, W>, bank: &Bank<'_>)
    ensures { Puts W.contents output.old output.new (encode (info bank.now)) }
{
    put_version(output, bank);
    put_text(output, bank, InfoId::Engine);
    put_text(output, bank, InfoId::Name);
    put_texts(output, bank, &OPTIONAL_TEXTS);
}

// Puts the version; the major version is 2.
#[tactic(auto, unfolding(bank_format::specs::Ids::IFIL))]
fn put_version<W: Write>(output: &mut Output<'_, W>, bank: &Bank<'_>)
    ensures { Puts W.contents output.old output.new (chunk IFIL (version bank.now)) }
{
    let [low, high] = bank.minor().to_le_bytes();
    put_chunk(output, *b"ifil", &[2, 0, low, high]);
}

// Puts the chunk of a text.
fn put_text<W: Write>(output: &mut Output<'_, W>, bank: &Bank<'_>, which: InfoId)
    ensures { Puts W.contents output.old output.new (text_bytes bank.now which) }
{
    let text = bank.info(which);
    output.head(id_of(which), body_size(text));
    output.put(text);
    output.put(text_end(text));
}

// Puts the chunks of these texts; empty texts are omitted.
#[tactic(auto, using(base_outputs::proofs::OutputLaws::putting_start, base_outputs::proofs::OutputLaws::putting_end))]
fn put_texts<W: Write>(output: &mut Output<'_, W>, bank: &Bank<'_>, texts: &[InfoId])
    ensures { Puts W.contents output.old output.new
        (encode (flat_map (optional_chunk bank.now) texts.now)) }
{
    for which in texts {
        put_optional_text(output, bank, *which);
    }
}

// Puts the chunk of a text; nothing if the text is empty.
#[tactic(auto, using(crate::proofs::TextLaws::texts, base_outputs::proofs::OutputLaws::puts_nothing))]
fn put_optional_text<W: Write>(output: &mut Output<'_, W>, bank: &Bank<'_>, which: InfoId)
    ensures { Puts W.contents output.old output.new (encode (optional_chunk bank.now which)) }
{
    if bank.info(which).is_empty() {
        return;
    }
    put_text(output, bank, which);
}
