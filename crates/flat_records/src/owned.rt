//! The bags of the owners of a level.
ghost use Rattle.std.specs.Prelude.{◌≡◌, ◌≤◌, ◌<◌, ◌+◌, length, slice_get, slice_index, [], IsSome, IfOk, OnOk, IfSome};
ghost use Rattle.flat_records.specs.Bags.{Bag, gens_in, mods_in, tables_of};
ghost use Rattle.flat_records.specs.Stored.{Uses, no_records};
ghost use Rattle.flat_records.specs.Owned.{all_bags, bag_at, flat_of};

use crate::bags::Bags;
use modulators::Modulator;
use sf_base::OutOfMemory;
use std::alloc::Global;
use std::marker::Model;

/// A list of owners (presets or instruments), each with a list of bags, stored as flat lists of records.
pub struct OwnerBags {
    // The index at which each owner's bags begin, and last the number of bags.
    pub(crate) begins: Vec<u16>,
    pub(crate) bags: Bags,
}

// Not derived: a derived `drop` is inlined, and proved, wherever a value is dropped; this one is a call.
impl Drop for OwnerBags {
    fn drop(self) {
        let OwnerBags { begins: _, bags: _ } = self;
    }
}

impl Model for OwnerBags {
    ghost use Rattle.std.specs.Prelude.{◌-◌, vec_len, vec_capacity};
    ghost use Rattle.flat_records.specs.Owned.{owners_in, AreRead};
    ghost use Rattle.flat_records.specs.OwnersStored.{Stored};

    ghost Value = { Stored };

    ghost view = { λ r. record {
      owners = owners_in (record { begins = r.begins.items; bags = r.bags.bags });
      spare = r.bags.spare;
      spare_owners = vec_capacity r.begins - vec_len r.begins;
    } };

    ghost invariant = { λ r. AreRead (record { begins = r.begins.items; bags = r.bags.bags }) };
}

impl OwnerBags {
    /// Makes an empty list of owners, with terminals only.
    pub fn new(alloc: Global) -> Result<OwnerBags, OutOfMemory>
        ensures { IfOk result (λ r. r.owners ≡ []) }
    {
        let bags = Bags::new(alloc)?;
        let mut begins = Vec::new(alloc);
        begins.push(0)?;
        Ok(OwnerBags { begins, bags })
    }

    /// Reserves capacity for so many more owners and records. A failed allocation keeps the owners, and may have
    /// reserved a part.
    pub fn reserve(
        &mut self,
        owners: usize,
        bags: usize,
        gens: usize,
        mods: usize,
    ) -> Result<(), OutOfMemory>
        ensures owners { self.new.owners ≡ self.old.owners }
        ensures kept { Uses self.old.spare self.new.spare no_records }
        ensures kept_owners { self.old.spare_owners ≤ self.new.spare_owners }
        ensures room { OnOk result (Uses (record { bags = bags; gens = gens; mods = mods }) self.new.spare no_records) }
        ensures room_for_owners { OnOk result (owners ≤ self.new.spare_owners) }
    {
        self.begins.try_reserve(owners)?;
        self.bags.reserve(bags, gens, mods)?;
        Ok(())
    }

    /// Makes a copy of the owners.
    pub fn copy(&self, alloc: Global) -> Result<OwnerBags, OutOfMemory>
        ensures { IfOk result (λ r. r.owners ≡ self.now.owners) }
    {
        let begins = Vec::from_slice(alloc, &self.begins)?;
        let bags = self.bags.copy(alloc)?;
        Ok(OwnerBags { begins, bags })
    }

    /// The number of owners.
    pub fn owner_count(&self) -> usize
        ensures { result ≡ length self.now.owners }
    {
        self.begins.len() - 1
    }

    /// The number of bags of owner `i`, which must exist.
    pub fn bag_count(&self, i: usize) -> usize
        requires { i < length self.now.owners }
        ensures { IfSome (slice_get self.now.owners i) (λ bags. result ≡ length bags) }
    {
        (self.begins[i + 1] - self.begins[i]) as usize
    }

    /// The numbers of bags, generators and modulators of all owners.
    pub fn record_counts(&self) -> (usize, usize, usize)
        ensures bags { result.0 ≡ length (all_bags self.now.owners) }
        ensures gens { result.1 ≡ length (gens_in (all_bags self.now.owners)) }
        ensures mods { result.2 ≡ length (mods_in (all_bags self.now.owners)) }
    {
        (
            self.bags.bag_count(),
            self.bags.gen_count(),
            self.bags.mod_count(),
        )
    }

    /// The index at which each owner's bags begin, and last the number of bags.
    pub fn begins(&self) -> &[u16]
        ensures { result.now ≡ (flat_of self.now.owners).begins }
    {
        &self.begins
    }

    /// The bag records of all owners: the indexes of each bag's first generator and modulator, and the terminal.
    pub fn bag_records(&self) -> &[(u16, u16)]
        ensures { result.now ≡ (tables_of (all_bags self.now.owners)).bags }
    {
        self.bags.bag_records()
    }

    /// The generator records of all owners, with the terminal.
    pub fn gen_records(&self) -> &[(u16, u16)]
        ensures { result.now ≡ (tables_of (all_bags self.now.owners)).gens }
    {
        self.bags.gen_records()
    }

    /// The modulator records of all owners, with the terminal.
    pub fn mod_records(&self) -> &[Modulator]
        ensures { result.now ≡ (tables_of (all_bags self.now.owners)).mods }
    {
        self.bags.mod_records()
    }

    /// The generators of bag `k` of owner `i`, which must exist: operators with their amounts.
    pub fn gens(&self, i: usize, k: usize) -> &[(u16, u16)]
        requires { IsSome (bag_at self.now.owners i k) }
        ensures { IfSome (bag_at self.now.owners i k) (λ (b : Bag). result.now ≡ b.gens) }
    {
        let at = place(&self.begins, i, k);
        self.bags.gens(at)
    }

    /// The modulators of bag `k` of owner `i`, which must exist.
    pub fn mods(&self, i: usize, k: usize) -> &[Modulator]
        requires { IsSome (bag_at self.now.owners i k) }
        ensures { IfSome (bag_at self.now.owners i k) (λ (b : Bag). result.now ≡ b.mods) }
    {
        let at = place(&self.begins, i, k);
        self.bags.mods(at)
    }
}

/// The index of bag `k` of owner `i` among all bags.
pub(crate) fn place(begins: &[u16], i: usize, k: usize) -> usize
    requires owner { i + 1 < length begins.now }
    requires bag { slice_index begins.now i + k ≤ slice_index begins.now (i + 1) }
    ensures { result ≡ slice_index begins.now i + k }
{
    let _end = begins[i + 1];
    begins[i] as usize + k
}
