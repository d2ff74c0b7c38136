//! Whether the table of a kit says all of a zone.
ghost use Rattle.std.specs.Prelude.{◌≡◌, ◌<◌, ℕ};
ghost use Rattle.std.specs.List.{list_all};
ghost use Rattle.bank_changes.specs.declared.members.Owner.TheVariants as owner;
ghost use Rattle.bank_parts.specs.Owners.{HasPlace};
ghost use Rattle.zone_select.specs.Remaining.{zones_in};
ghost use Rattle.kit_of_instrument.specs.KitZones.{amount_in, has_kit_amounts, has_kit_mode, has_loop, is_in_tables};
ghost use Rattle.kit_of_instrument.specs.KitZones.{is_pan, is_plain, is_whole};

use bank_core::{Bank, Owner, Place, ZonePlace};
use generators::operators;
use show_zone_map::{Rectangle, zone_rectangle};

/// The farthest pan to the left and to the right, in 0.1 %.
const LEFT: i16 = -500;

const RIGHT: i16 = 500;

/// The low bits of the sample modes.
const MODES: u16 = 4;

/// A loop that is played without end.
const LOOPED: u16 = 1;

/// A loop that is played until the note's release.
const LOOPED_UNTIL_RELEASE: u16 = 3;

/// The highest exclusive class of a table.
const HIGHEST_CLASS: u16 = 127;

/// Returns the amount of an operator in a zone: its own, else that of its global zone.
pub(crate) fn amount_in(bank: &Bank<'_>, instrument: u32, zone: u32, operator: u16) -> Option<u16>
    ensures { result ≡ amount_in bank.now instrument zone operator }
{
    let owner = Owner::Inst(instrument);
    let own = bank.gen_of(owner, Place::Zone(zone), operator);
    own.or(bank.gen_of(owner, Place::Global, operator))
}

/// Whether a place, which exists, sets only what tables have, and has no modulators.
pub(crate) fn is_plain(bank: &Bank<'_>, instrument: usize, place: ZonePlace) -> bool
    requires { HasPlace bank.now.instruments instrument place }
    ensures { result ≡ is_plain bank.now instrument place }
{
    let owners = bank.instruments();
    are_in_tables(owners.entries(instrument, place)) && owners.mod_count(instrument, place) == 0
}

fn are_in_tables(entries: &[(u16, u16)]) -> bool
    ensures { result ≡ list_all (λ (e : ℕ × ℕ). is_in_tables e.0) entries.now }
{
    entries.iter().all(|entry| is_in_tables(entry.0))
}

fn is_in_tables(operator: u16) -> bool
    ensures { result ≡ is_in_tables operator }
{
    operator == operators::KEY_RANGE
        || operator == operators::VEL_RANGE
        || operator == operators::PAN
        || operator == operators::SAMPLE_MODES
        || operator == operators::EXCLUSIVE_CLASS
        || operator == operators::OVERRIDING_ROOT_KEY
}

/// Whether the table says all of a zone, which exists, apart from its global zone.
#[tactic(auto, using(crate::proofs::PlaceLaws::has_zone))]
pub(crate) fn is_whole(bank: &Bank<'_>, instrument: u32, zone: u32) -> bool
    requires { zone < zones_in bank.now (owner.Inst instrument) }
    ensures { result ≡ is_whole bank.now instrument zone }
{
    is_plain(bank, instrument as usize, ZonePlace::Zone(zone as usize))
        && match zone_rectangle(bank, instrument, zone) {
            Some(rectangle) => has_kit_amounts(bank, instrument, rectangle),
            None => false,
        }
}

// Whether the pan, the class and the modes of a zone can be those of a table.
fn has_kit_amounts(bank: &Bank<'_>, instrument: u32, rectangle: Rectangle) -> bool
    ensures { result ≡ has_kit_amounts bank.now instrument rectangle }
{
    let zone = rectangle.zone;
    let pan = amount_in(bank, instrument, zone, operators::PAN);
    let class = amount_in(bank, instrument, zone, operators::EXCLUSIVE_CLASS);
    let modes = amount_in(bank, instrument, zone, operators::SAMPLE_MODES);
    pan.is_none_or(is_pan)
        && class.is_none_or(|class| class <= HIGHEST_CLASS)
        && has_kit_mode(has_loop(bank, rectangle.sample), modes)
}

fn is_pan(amount: u16) -> bool
    ensures { result ≡ is_pan amount }
{
    let pan = amount.cast_signed();
    LEFT <= pan && pan <= RIGHT
}

fn has_loop(bank: &Bank<'_>, sample: u16) -> bool
    ensures { result ≡ has_loop bank.now sample }
{
    match bank.sample(u32::from(sample)) {
        Some(sample) => sample.looped.is_some(),
        None => false,
    }
}

// Whether these sample modes play a sample as a kit does.
fn has_kit_mode(has_loop: bool, modes: Option<u16>) -> bool
    ensures { result ≡ has_kit_mode has_loop modes }
{
    let mode = modes.unwrap_or(0) % MODES;
    if has_loop {
        mode == LOOPED
    } else {
        mode != LOOPED_UNTIL_RELEASE
    }
}
