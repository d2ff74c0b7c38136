//! Calls that allocate nothing, made while every allocation fails.
use crate::bag_changes::{changes_bags, spare_bags};
use crate::banks::{BANK, file_of};
use crate::flat_tone::{flat_tone, tone_records};
use crate::outcome::Outcome;
use crate::players::TONE_SIDES;
use bank_core::{Bank, Flat, InfoId, List, Owner, Part, Place, Recs};
use flat_records::Bags;
use generators::Level;
use mixer::Player;
use script_notes::Note;
use sf_base::OutOfMemory;
use sf_reader::read;
use std::alloc::Global;
use test_inputs::tone;
use voices::Voice;
use zone_select::{matches, params};

/// More bytes than any machine has. In one run of `checks/failed_allocations`, a request for this many makes every
/// allocation fail until the next such request.
const TOO_MANY: usize = 1 << 62;

/// Makes the calls. If preparing them is out of memory, all is done again.
pub(crate) fn calls_without_allocations(alloc: Global) -> Outcome {
    let file = tone();
    match all_calls(alloc, file.bytes()) {
        Ok(right) => Outcome::done(right),
        Err(OutOfMemory) => match all_calls(alloc, file.bytes()) {
            Ok(right) => Outcome::refused(right),
            Err(OutOfMemory) => Outcome::Wrong,
        },
    }
}

// Prepares the values that the calls need, then makes the calls between two requests for `TOO_MANY` bytes. Returns
// whether each result is right.
fn all_calls(alloc: Global, tone: &[u8]) -> Result<bool, OutOfMemory> {
    let mut requests = Vec::from_slice(alloc, &[0u8])?;
    let bank = bank_in(alloc, BANK)?;
    let tone_bank = bank_in(alloc, tone)?;
    let note = Note::new(0, 8, 0, 0, 67, 127).ok_or(OutOfMemory)?;
    let Ok(mut voice) = Voice::start(alloc, &tone_bank, &note, (0, 0)) else {
        return Err(OutOfMemory);
    };
    let mut player = Player::new(alloc);
    player.start(alloc, &tone_bank, &note)?;
    let flat = flat_tone(alloc)?;
    let records = tone_records(alloc)?;
    let mut bags = spare_bags(alloc)?;
    let begins = requests.try_reserve(TOO_MANY).is_err();
    let is_right = returns_members(&bank)
        && returns_zones(&bank)
        && returns_records(&bank)
        && selects(&bank, &tone_bank, &note)
        && plays_voice(&mut voice)
        && plays(&mut player)
        && gives_tone(flat, tone)
        && gives_bag(records)
        && changes_bags(&mut bags);
    let ends = requests.try_reserve(TOO_MANY).is_err();
    Ok(begins && is_right && ends && requests.as_slice() == [0].as_slice())
}

fn bank_in(alloc: Global, file: &[u8]) -> Result<Bank<'_>, OutOfMemory> {
    match read(alloc, file) {
        Ok((bank, _counts)) => Ok(bank),
        Err(_) => Err(OutOfMemory),
    }
}

// The getters of presets, instruments, samples and texts.
fn returns_members(bank: &Bank<'_>) -> bool {
    let lists = [List::Presets, List::Instruments, List::Samples];
    bank.minor() == 4
        && bank.info(InfoId::Engine) == b"EMU8000".as_slice()
        && bank.info(InfoId::Comment).is_empty()
        && lists.map(|list| bank.count(list)) == [1, 1, 1]
        && bank
            .head(0)
            .is_some_and(|head| head.name.bytes() == b"p".as_slice())
        && bank.head(1).is_none()
        && bank
            .inst_name(0)
            .is_some_and(|name| name.bytes() == b"i".as_slice())
        && bank.inst_name(1).is_none()
        && bank
            .sample(0)
            .is_some_and(|sample| sample.points.len() == 2)
        && bank.sample(1).is_none()
}

// The getters of zones.
fn returns_zones(bank: &Bank<'_>) -> bool {
    let (preset, instrument) = (Owner::Preset(0), Owner::Inst(0));
    bank.zone_count(preset) == Some(2)
        && bank.zone_count(Owner::Inst(1)).is_none()
        && bank.target(preset, 1) == Some(0)
        && bank.target(preset, 2).is_none()
        && bank.gen_of(instrument, Place::Global, 48) == Some(10)
        && bank.gen_of(instrument, Place::Zone(0), 48).is_none()
        && bank.gen_at(instrument, Place::Zone(0), 0) == Some((43, 0x7f00))
        && bank.gen_at(preset, Place::Zone(1), 1).is_none()
        && bank
            .mod_at(instrument, Place::Zone(0), 1)
            .is_some_and(|modulator| modulator.amount == 100)
        && bank.mod_at(preset, Place::Global, 0).is_none()
}

// The getters of records.
fn returns_records(bank: &Bank<'_>) -> bool {
    let at = Level::Inst;
    let parts = [Part::Heads, Part::Bags, Part::Gens, Part::Mods];
    parts.map(|part| bank.rec_len(at, part)) == [2, 3, 6, 4]
        && bank.bag_of(at, 1) == Some(2)
        && bank.bag_of(at, 2).is_none()
        && bank.bag(at, 1) == Some((2, 1))
        && bank.bag(at, 3).is_none()
        && bank.gen_rec(at, 4) == Some((53, 0))
        && bank.gen_rec(at, 6).is_none()
        && bank
            .mod_rec(at, 2)
            .is_some_and(|modulator| modulator.dest == 48)
        && bank.mod_rec(at, 4).is_none()
}

// The pairs that a note selects, and the parameters of the only pair of `tone`.
fn selects(bank: &Bank<'_>, tone_bank: &Bank<'_>, note: &Note) -> bool {
    let mut pairs = matches(bank, note);
    pairs.next() == Some((0, 0))
        && pairs.next() == Some((1, 0))
        && pairs.next().is_none()
        && params(bank, note, (2, 0)).is_none()
        && params(tone_bank, note, (0, 0)).is_some_and(|parameters| {
            parameters.voice.phase_increment == 98193
                && parameters.voice.loop_end == 3
                && parameters.voice.length == 8
        })
}

// All frames of the voice on `tone`.
fn plays_voice(voice: &mut Voice<'_>) -> bool {
    for frame in 0..8 {
        let (left, right) = voice.next_frame();
        if left != i32::from(TONE_SIDES[2 * frame])
            || right != i32::from(TONE_SIDES[2 * frame + 1])
        {
            return false;
        }
    }
    voice.done()
}

// The frames of the note on `tone` in two blocks, then a long block of silence.
fn plays(player: &mut Player<'_>) -> bool {
    let mut front = [0; 6];
    player.block(&mut front);
    let mut rest = [0; 10];
    player.block(&mut rest);
    let mut silence = [1; 4096];
    player.block(&mut silence);
    front[..] == TONE_SIDES[..6] && rest[..] == TONE_SIDES[6..] && silence == [0; 4096]
}

fn gives_tone(flat: Flat<'_>, tone: &[u8]) -> bool {
    Bank::from_flat(flat).is_some_and(|bank| file_of(&bank).has(tone))
}

fn gives_bag(records: Recs) -> bool {
    Bags::from_recs(records).is_some_and(|bags| bags.bag_count() == 1 && bags.gen_count() == 2)
}
