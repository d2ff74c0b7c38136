//! The generator and modulator amounts of a zone, each its own or else its global zone's.
ghost use Rattle.std.specs.Prelude.{◌≡◌, [], false, unwrap_or};
ghost use Rattle.std.specs.Option.{option_map};
ghost use Rattle.generators.specs.Ranges.{is_range_operator};
ghost use Rattle.bank_parts.specs.Owners.{entries_at, mods_at};
ghost use Rattle.bank_parts.specs.declared.owners.ZonePlace.TheVariants as place;
ghost use Rattle.zone_select.specs.Amounts.{last_of_identity, modulator_of_identity};
ghost use Rattle.zone_select.specs.At.{zone_settings_at};
ghost use Rattle.zone_select.specs.ZoneSettings.{no_amounts, with_amounts, settings_of};

use bank_core::{Bank, Owner};
use bank_parts::{OwnerHead, Owners, ZonePlace};
use modulators::Modulator;

// One above the operators that a valid bank has.
const OPERATORS: usize = 61;

// The amounts of a zone by operator, its modulators, and those of its global zone.
#[derive(Drop)]
pub(crate) struct ZoneAmounts<'b> {
    amounts: [Option<u16>; OPERATORS],
    mods: &'b [Modulator],
    inherited: &'b [Modulator],
}

impl<'b> ZoneAmounts<'b> {
    // The settings of zone `zone` of an owner; none if there is no such zone.
    pub(crate) fn of(bank: &'b Bank<'_>, owner: Owner, zone: u32) -> ZoneAmounts<'b>
        ensures { settings_of result ≡ zone_settings_at bank.now owner zone }
    {
        match owner {
            Owner::Preset(number) => zone_amounts(bank.presets(), number, zone),
            Owner::Inst(number) => zone_amounts(bank.instruments(), number, zone),
        }
    }

    // The amount of an operator that isn't a range.
    #[tactic(auto, unfolding(crate::specs::ZoneSettings::settings_of))]
    pub(crate) fn amount(&self, operator: u16) -> Option<u16>
        requires { is_range_operator operator ≡ false }
        ensures { result ≡ (settings_of self.now).settings operator }
    {
        match self.amounts.get(operator as usize) {
            Some(amount) => *amount,
            None => None,
        }
    }

    // The amount of the last modulator with this identity.
    #[tactic(auto, unfolding(crate::specs::ZoneSettings::settings_of))]
    pub(crate) fn modulator_amount(&self, like: &Modulator) -> Option<i16>
        ensures { result ≡ option_map (λ m. m.amount) (modulator_of_identity like.now (settings_of self.now)) }
    {
        match last_of_identity(self.mods, like) {
            Some(modulator) => Some(modulator.amount),
            None => Some(last_of_identity(self.inherited, like)?.amount),
        }
    }
}

fn zone_amounts<'b, H: OwnerHead>(owners: &'b Owners<H>, number: u32, zone: u32) -> ZoneAmounts<'b>
    ensures amounts { result.amounts ≡ with_amounts (with_amounts no_amounts (unwrap_or (entries_at owners.now number place.Global) [])) (unwrap_or (entries_at owners.now number (place.Zone zone)) []) }
    ensures mods { result.mods.now ≡ unwrap_or (mods_at owners.now number (place.Zone zone)) [] }
    ensures inherited { result.inherited.now ≡ unwrap_or (mods_at owners.now number place.Global) [] }
{
    let place = ZonePlace::Zone(zone as usize);
    let mut amounts = [None; OPERATORS];
    put_amounts(&mut amounts, entries_of(owners, number, ZonePlace::Global));
    put_amounts(&mut amounts, entries_of(owners, number, place));
    ZoneAmounts {
        amounts,
        mods: mods_of(owners, number, place),
        inherited: mods_of(owners, number, ZonePlace::Global),
    }
}

// Sets the amounts of these generators.
fn put_amounts(amounts: &mut [Option<u16>; OPERATORS], gens: &[(u16, u16)])
    ensures { amounts.new ≡ with_amounts amounts.old gens.now }
{
    for &(operator, amount) in gens {
        if (operator as usize) < OPERATORS {
            amounts[operator as usize] = Some(amount);
        }
    }
}

// The generators of a place in the order of a file; none if there is no such place.
fn entries_of<H: OwnerHead>(owners: &Owners<H>, number: u32, place: ZonePlace) -> &[(u16, u16)]
    ensures { result.now ≡ unwrap_or (entries_at owners.now number place) [] }
{
    let number = number as usize;
    if !owners.has_place(number, place) {
        return &[];
    }
    owners.entries(number, place)
}

// The modulators of a place, in order; none if there is no such place.
fn mods_of<H: OwnerHead>(owners: &Owners<H>, number: u32, place: ZonePlace) -> &[Modulator]
    ensures { result.now ≡ unwrap_or (mods_at owners.now number place) [] }
{
    let number = number as usize;
    if !owners.has_place(number, place) {
        return &[];
    }
    owners.mods(number, place)
}

// The last of these modulators with this identity.
fn last_of_identity(mods: &[Modulator], like: &Modulator) -> Option<Modulator>
    ensures { result ≡ last_of_identity like.now mods.now }
{
    let mut found = None;
    for modulator in mods {
        if modulator.same_identity(like) {
            found = Some(*modulator);
        }
    }
    found
}
