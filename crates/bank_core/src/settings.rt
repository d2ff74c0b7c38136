//! The raw changes of the generators and modulators at a place, and the limits that they may break.
ghost use Rattle.std.specs.Prelude.{◌≡◌, ◌<◌, ◌≤◌, ◌-◌, Some, ℕ, length, IsSome, IsOk, IfOk, IfSome, OnOk, OnErr, unwrap_or, []};
ghost use Rattle.std.specs.Option.{option_map};
ghost use Rattle.std.specs.List.{list_any};
ghost use Rattle.modulators.specs.declared.modulator.Modulator.{Modulator};
ghost use Rattle.modulators.specs.Modulators.{is_link};
ghost use Rattle.bank_parts.specs.Owners.{mods_at};
ghost use Rattle.bank_parts.specs.Sound.{IsSound};
ghost use Rattle.bank_validity.specs.Limits.{broken_limit};
ghost use Rattle.bank_changes.specs.Members.{zone_place, settings_of, mods_of, amount_of, mod_at};
ghost use Rattle.bank_changes.specs.Settings.{gen_set, gen_cleared, mod_added, mod_removed, mod_set, place_records, zones_at};

use crate::bank::Bank;
use bank_changes::{
    Owner, Place, add_mod, clear_gen, place_of, place_records, remove_mod, set_gen, set_mod,
    with_owners,
};
use bank_parts::{OwnerHead, Owners, Parts, Records};
use bank_validity::Limit;
use modulators::Modulator;
use sf_base::OutOfMemory;

impl<'a> Bank<'a> {
    /// Sets an operator at a place, and returns the amount that it had. It allocates only if the operator was not
    /// set. On `OutOfMemory` the bank is unchanged.
    pub fn set_gen(
        &mut self,
        owner: Owner,
        place: Place,
        operator: u16,
        amount: u16,
    ) -> Result<Option<u16>, OutOfMemory>
        requires there { IsSome (settings_of self.old owner place) }
        requires sound { IsSound (gen_set self.old owner place operator amount) }
        ensures was { IfOk result (λ was. was ≡ amount_of self.old owner place operator) }
        ensures ok { OnOk result (self.new ≡ gen_set self.old owner place operator amount) }
        ensures err { OnErr result (self.new ≡ self.old) }
        ensures needs_no_memory { IsSome (amount_of self.old owner place operator) → IsOk result }
    {
        set_gen(&mut self.parts, owner, place, operator, amount)
    }

    /// Clears an operator at a place, and returns the amount that it had. Allocates nothing.
    pub fn clear_gen(&mut self, owner: Owner, place: Place, operator: u16) -> Option<u16>
        requires there { IsSome (settings_of self.old owner place) }
        requires sound { IsSound (gen_cleared self.old owner place operator) }
        ensures was { result ≡ amount_of self.old owner place operator }
        ensures change { self.new ≡ gen_cleared self.old owner place operator }
    {
        clear_gen(&mut self.parts, owner, place, operator)
    }

    /// Inserts a modulator as number `index` at a place; later ones move up by one. On `OutOfMemory` the bank is
    /// unchanged.
    pub fn add_mod(
        &mut self,
        owner: Owner,
        place: Place,
        index: u32,
        modulator: Modulator,
    ) -> Result<(), OutOfMemory>
        requires there { IsSome (settings_of self.old owner place) }
        requires place { IfSome (mods_of self.old owner place) (λ mods. index ≤ length mods) }
        requires sound { IsSound (mod_added self.old owner place index modulator) }
        ensures ok { OnOk result (self.new ≡ mod_added self.old owner place index modulator) }
        ensures err { OnErr result (self.new ≡ self.old) }
    {
        add_mod(&mut self.parts, owner, place, index, modulator)
    }

    /// Removes a modulator at a place and returns it; later ones move down by one. Allocates nothing.
    pub fn remove_mod(&mut self, owner: Owner, place: Place, index: u32) -> Modulator
        requires there { IsSome (settings_of self.old owner place) }
        requires place { IfSome (mods_of self.old owner place) (λ mods. index < length mods) }
        requires sound { IsSound (mod_removed self.old owner place index) }
        ensures value { mod_at self.old owner place index ≡ Some result }
        ensures change { self.new ≡ mod_removed self.old owner place index }
    {
        remove_mod(&mut self.parts, owner, place, index)
    }

    /// Replaces a modulator at a place and returns the old one. Allocates nothing.
    pub fn set_mod(
        &mut self,
        owner: Owner,
        place: Place,
        index: u32,
        modulator: Modulator,
    ) -> Modulator
        requires there { IsSome (settings_of self.old owner place) }
        requires place { IfSome (mods_of self.old owner place) (λ mods. index < length mods) }
        requires sound { IsSound (mod_set self.old owner place index modulator) }
        ensures value { mod_at self.old owner place index ≡ Some result }
        ensures change { self.new ≡ mod_set self.old owner place index modulator }
    {
        set_mod(&mut self.parts, owner, place, index, modulator)
    }

    /// How many modulators a place has; none if there is no such place.
    pub fn mod_count(&self, owner: Owner, place: Place) -> Option<usize>
        ensures { result ≡ option_map length (mods_of self.now owner place) }
    {
        with_owners!(&self.parts, owner, |owners, number| {
            mod_count_in(owners, number, place)
        })
    }

    /// Whether some modulator of a place is linked with another one; false if there is no such place.
    pub fn has_link(&self, owner: Owner, place: Place) -> bool
        ensures { result ≡ list_any is_link (unwrap_or (mods_of self.now owner place) []) }
    {
        with_owners!(&self.parts, owner, |owners, number| {
            has_link_in(owners, number, place)
        })
    }

    /// The first limit that is broken after an operator is set at a place, to any amount.
    pub fn broken_with_gen(&self, owner: Owner, place: Place, operator: u16) -> Option<Limit>
        requires { IsSome (settings_of self.now owner place) }
        ensures { (amount : ℕ) → result ≡ broken_limit (gen_set self.now owner place operator amount) }
    {
        let totals = self.totals();
        if self.gen_of(owner, place, operator).is_some() {
            return None;
        }
        let more = Records {
            zones: bags_more(&self.parts, owner, place),
            gens: 1,
            mods: 0,
        };
        totals.broken_with_records(owner.level(), more)
    }

    /// The first limit that is broken after one more modulator at a place.
    pub fn broken_with_mod(&self, owner: Owner, place: Place) -> Option<Limit>
        requires { IsSome (settings_of self.now owner place) }
        ensures { (index : ℕ) → (modulator : Modulator) → result ≡ broken_limit (mod_added self.now owner place index modulator) }
    {
        let more = Records {
            zones: bags_more(&self.parts, owner, place),
            gens: 0,
            mods: 1,
        };
        self.totals().broken_with_records(owner.level(), more)
    }
}

// How many bags the next generator or modulator of a place adds: the first of a global zone brings its bag.
fn bags_more(parts: &Parts<'_>, owner: Owner, place: Place) -> usize
    requires { IsSome (settings_of parts.now owner place) }
    ensures { result ≡ zones_at place - (place_records parts.now owner place).zones }
{
    zones_at(place) - place_records(parts, owner, place).zones
}

// How many bags a place adds when it is not empty. The bag of a zone that is not global is always counted elsewhere.
fn zones_at(place: Place) -> usize
    ensures { result ≡ zones_at place }
{
    match place {
        Place::Global => 1,
        Place::Zone(_) => 0,
    }
}

// ---- the modulators of a place

fn mod_count_in<H: OwnerHead>(owners: &Owners<H>, number: u32, place: Place) -> Option<usize>
    ensures { result ≡ option_map length (mods_at owners.now number (zone_place place)) }
{
    let (number, place) = (number as usize, place_of(place));
    if !owners.has_place(number, place) {
        return None;
    }
    Some(owners.mod_count(number, place))
}

fn has_link_in<H: OwnerHead>(owners: &Owners<H>, number: u32, place: Place) -> bool
    ensures { result ≡ list_any is_link (unwrap_or (mods_at owners.now number (zone_place place)) []) }
{
    let (number, place) = (number as usize, place_of(place));
    if !owners.has_place(number, place) {
        return false;
    }
    owners
        .mods(number, place)
        .iter()
        .any(|modulator| modulator.is_link())
}
