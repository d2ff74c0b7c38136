//! Changes of the generators and modulators at a place of a preset or an instrument.
ghost use Rattle.std.specs.Prelude.{◌≡◌, ◌<◌, ◌≤◌, Some, None, length, slice_get, IsSome, IsOk, IfSome, IfOk, OnOk, OnErr};
ghost use Rattle.bank_parts.specs.declared.parts.ZoneOwner.{ZoneOwner};
ghost use Rattle.bank_parts.specs.Bagged.{bag_number};
ghost use Rattle.bank_parts.specs.Owners.{HasPlace, mods_at, amount_at, mod_at};
ghost use Rattle.bank_parts.specs.Room.{AreStorable};
ghost use Rattle.bank_parts.specs.ZoneChanges.{gen_set, gen_cleared, mod_added, mod_removed, mod_set};

use crate::bag_changes::{insert_first_bag, remove_gen_record, remove_mod_record};
use crate::counting::Records;
use crate::heads::OwnerHead;
use crate::owners::{Owners, ZonePlace};
use crate::room::make_room;
use generators::search_entries;
use modulators::Modulator;
use sf_base::OutOfMemory;

impl<H: OwnerHead> Owners<H> {
    /// Sets an operator at a place of owner `i`, and returns the amount that it had. It allocates only if the
    /// operator was not set. On `OutOfMemory` nothing changes.
    pub fn set_gen(
        &mut self,
        i: usize,
        place: ZonePlace,
        operator: u16,
        amount: u16,
    ) -> Result<Option<u16>, OutOfMemory>
        requires there { HasPlace self.old i place }
        requires storable { amount_at self.old i place operator ≡ None → AreStorable H.LEVEL (gen_set self.old i place operator amount) }
        ensures was { IfOk result (λ was. was ≡ amount_at self.old i place operator) }
        ensures ok { OnOk result (self.new ≡ gen_set self.old i place operator amount) }
        ensures err { OnErr result (self.new ≡ self.old) }
        ensures needs_no_memory { IsSome (amount_at self.old i place operator) → IsOk result }
    {
        let Some(at) = self.place_bag(i, place) else {
            insert_first_bag(&mut self.bags, i, &[(operator, amount)], &[])?;
            return Ok(None);
        };
        let entries = self.bag_entries(i, place, at);
        match search_entries(entries, operator) {
            Ok(j) => {
                let was = entries[j].1;
                self.bags.set_gen(i, at, j, (operator, amount));
                Ok(Some(was))
            }
            Err(j) => {
                make_room(&mut self.bags, 0, ONE_GENERATOR)?;
                self.bags.put_gens(i, at, j, &[(operator, amount)]);
                Ok(None)
            }
        }
    }

    /// Clears an operator at a place of owner `i`, and returns the amount that it had. Allocates nothing.
    pub fn clear_gen(&mut self, i: usize, place: ZonePlace, operator: u16) -> Option<u16>
        requires { HasPlace self.old i place }
        ensures was { result ≡ amount_at self.old i place operator }
        ensures change { self.new ≡ gen_cleared self.old i place operator }
    {
        let Some(at) = self.place_bag(i, place) else {
            return None;
        };
        let entries = self.bag_entries(i, place, at);
        match search_entries(entries, operator) {
            Ok(j) => {
                let was = entries[j].1;
                remove_gen_record(&mut self.bags, i, at, j);
                Some(was)
            }
            Err(_) => None,
        }
    }

    /// Inserts a modulator as number `j` at a place of owner `i`; later ones move up by one. On `OutOfMemory` nothing
    /// changes.
    pub fn insert_mod(
        &mut self,
        i: usize,
        place: ZonePlace,
        j: usize,
        modulator: Modulator,
    ) -> Result<(), OutOfMemory>
        requires there { HasPlace self.old i place }
        requires index { IfSome (mods_at self.old i place) (λ mods. j ≤ length mods) }
        requires storable { AreStorable H.LEVEL (mod_added self.old i place j modulator) }
        ensures ok { OnOk result (self.new ≡ mod_added self.old i place j modulator) }
        ensures err { OnErr result (self.new ≡ self.old) }
    {
        let Some(at) = self.place_bag(i, place) else {
            insert_first_bag(&mut self.bags, i, &[], &[modulator])?;
            return Ok(());
        };
        make_room(&mut self.bags, 0, ONE_MODULATOR)?;
        self.bags.put_mods(i, at, j, &[modulator]);
        Ok(())
    }

    /// Removes modulator `j` at a place of owner `i` and returns it; later ones move down by one. Allocates nothing.
    pub fn remove_mod(&mut self, i: usize, place: ZonePlace, j: usize) -> Modulator
        requires there { HasPlace self.old i place }
        requires index { IfSome (mods_at self.old i place) (λ mods. j < length mods) }
        ensures value { mod_at self.old i place j ≡ Some result }
        ensures change { self.new ≡ mod_removed self.old i place j }
    {
        let (at, was) = self.bag_and_mod(i, place, j);
        remove_mod_record(&mut self.bags, i, at, j);
        was
    }

    /// Replaces modulator `j` at a place of owner `i`, and returns the old one. Allocates nothing.
    pub fn set_mod(
        &mut self,
        i: usize,
        place: ZonePlace,
        j: usize,
        modulator: Modulator,
    ) -> Modulator
        requires there { HasPlace self.old i place }
        requires index { IfSome (mods_at self.old i place) (λ mods. j < length mods) }
        ensures value { mod_at self.old i place j ≡ Some result }
        ensures change { self.new ≡ mod_set self.old i place j modulator }
    {
        let (at, was) = self.bag_and_mod(i, place, j);
        self.bags.set_mod(i, at, j, modulator);
        was
    }

    // The index of the bag of a place among the bags of owner `i`, and modulator `j` of that bag.
    fn bag_and_mod(&self, i: usize, place: ZonePlace, j: usize) -> (usize, Modulator)
        requires there { HasPlace self.now i place }
        requires index { IfSome (mods_at self.now i place) (λ mods. j < length mods) }
        ensures bag { IfSome (slice_get self.now i) (λ (x : ZoneOwner H). Some result.0 ≡ bag_number place x) }
        ensures value { mod_at self.now i place j ≡ Some result.1 }
    {
        let Some(at) = self.place_bag(i, place) else {
            unreachable!();
        };
        (at, self.bags.mods(i, at)[j])
    }
}

const ONE_GENERATOR: Records = Records {
    zones: 0,
    gens: 1,
    mods: 0,
};

const ONE_MODULATOR: Records = Records {
    zones: 0,
    gens: 0,
    mods: 1,
};
