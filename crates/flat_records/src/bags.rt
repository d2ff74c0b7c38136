//! The bags of a level.
ghost use Rattle.std.specs.Prelude.{◌≡◌, ◌<◌, length, slice_get, [], IfOk, OnOk, IfSome};
ghost use Rattle.flat_records.specs.Bags.{Bag, gens_in, mods_in, tables_of};
ghost use Rattle.flat_records.specs.Stored.{Uses, no_records};

use crate::pieces::part;
use modulators::Modulator;
use sf_base::OutOfMemory;
use std::alloc::Global;
use std::marker::Model;

/// The records of the bags, generators and modulators of a level, each list with its terminal.
#[derive(Drop)]
pub struct Recs {
    /// The indexes of each bag's first generator and modulator, and last the numbers of both.
    pub bags: Vec<(u16, u16)>,
    /// Operators with their amounts, and last (0, 0).
    pub gens: Vec<(u16, u16)>,
    /// Modulators, and last one of zeros.
    pub mods: Vec<Modulator>,
}

impl Model for Recs {
    ghost use Rattle.flat_records.specs.Bags.{Tables};

    ghost Value = { Tables };

    ghost view = { λ r. record { bags = r.bags.items; gens = r.gens.items; mods = r.mods.items } };
}

/// A list of bags, stored as three flat lists of records.
pub struct Bags {
    pub(crate) bags: Vec<(u16, u16)>,
    pub(crate) gens: Vec<(u16, u16)>,
    pub(crate) mods: Vec<Modulator>,
}

// Not derived: a derived `drop` is inlined, and proved, wherever a value is dropped; this one is a call.
impl Drop for Bags {
    fn drop(self) {
        let Bags {
            bags: _,
            gens: _,
            mods: _,
        } = self;
    }
}

impl Model for Bags {
    ghost use Rattle.std.specs.Prelude.{◌-◌, vec_len, vec_capacity};
    ghost use Rattle.flat_records.specs.Bags.{bags_in, AreRead};
    ghost use Rattle.flat_records.specs.Stored.{Stored};

    ghost Value = { Stored };

    ghost view = { λ r. record {
      bags = bags_in (record { bags = r.bags.items; gens = r.gens.items; mods = r.mods.items });
      spare = record {
        bags = vec_capacity r.bags - vec_len r.bags;
        gens = vec_capacity r.gens - vec_len r.gens;
        mods = vec_capacity r.mods - vec_len r.mods;
      };
    } };

    ghost invariant = { λ r. AreRead (record { bags = r.bags.items; gens = r.gens.items; mods = r.mods.items }) };
}

/// The terminal of the modulators.
const NO_MODULATOR: Modulator = Modulator {
    source: 0,
    dest: 0,
    amount: 0,
    amount_source: 0,
    transform: 0,
};

impl Bags {
    /// Makes an empty list of bags, with terminals only.
    pub fn new(alloc: Global) -> Result<Bags, OutOfMemory>
        ensures { IfOk result (λ r. r.bags ≡ []) }
    {
        let mut bags = Vec::new(alloc);
        bags.push((0, 0))?;
        let mut gens = Vec::new(alloc);
        gens.push((0, 0))?;
        let mut mods = Vec::new(alloc);
        mods.push(NO_MODULATOR)?;
        Ok(Bags { bags, gens, mods })
    }

    /// Reserves capacity for so many more records of each type. A failed allocation keeps the bags, and may have
    /// reserved a part.
    pub fn reserve(&mut self, bags: usize, gens: usize, mods: usize) -> Result<(), OutOfMemory>
        ensures bags { self.new.bags ≡ self.old.bags }
        ensures kept { Uses self.old.spare self.new.spare no_records }
        ensures room { OnOk result (Uses (record { bags = bags; gens = gens; mods = mods }) self.new.spare no_records) }
    {
        self.bags.try_reserve(bags)?;
        self.gens.try_reserve(gens)?;
        self.mods.try_reserve(mods)?;
        Ok(())
    }

    /// Makes a copy of the bags.
    pub fn copy(&self, alloc: Global) -> Result<Bags, OutOfMemory>
        ensures { IfOk result (λ r. r.bags ≡ self.now.bags) }
    {
        let bags = Vec::from_slice(alloc, &self.bags)?;
        let gens = Vec::from_slice(alloc, &self.gens)?;
        let mods = Vec::from_slice(alloc, &self.mods)?;
        Ok(Bags { bags, gens, mods })
    }

    /// The generators of bag k: operators with their amounts.
    pub fn gens(&self, k: usize) -> &[(u16, u16)]
        requires { k < length self.now.bags }
        ensures { IfSome (slice_get self.now.bags k) (λ (b : Bag). result.now ≡ b.gens) }
    {
        let start = self.bags[k].0 as usize;
        let end = self.bags[k + 1].0 as usize;
        part(&self.gens, start, end)
    }

    /// The modulators of bag k.
    pub fn mods(&self, k: usize) -> &[Modulator]
        requires { k < length self.now.bags }
        ensures { IfSome (slice_get self.now.bags k) (λ (b : Bag). result.now ≡ b.mods) }
    {
        let start = self.bags[k].1 as usize;
        let end = self.bags[k + 1].1 as usize;
        part(&self.mods, start, end)
    }

    /// The number of bags.
    pub fn bag_count(&self) -> usize
        ensures { result ≡ length self.now.bags }
    {
        self.bags.len() - 1
    }

    /// The number of generators in all bags.
    pub fn gen_count(&self) -> usize
        ensures { result ≡ length (gens_in self.now.bags) }
    {
        self.gens.len() - 1
    }

    /// The number of modulators in all bags.
    pub fn mod_count(&self) -> usize
        ensures { result ≡ length (mods_in self.now.bags) }
    {
        self.mods.len() - 1
    }

    /// The bag records: the indexes of each bag's first generator and modulator, and the terminal.
    pub fn bag_records(&self) -> &[(u16, u16)]
        ensures { result.now ≡ (tables_of self.now.bags).bags }
    {
        &self.bags
    }

    /// The generator records, with the terminal.
    pub fn gen_records(&self) -> &[(u16, u16)]
        ensures { result.now ≡ (tables_of self.now.bags).gens }
    {
        &self.gens
    }

    /// The modulator records, with the terminal.
    pub fn mod_records(&self) -> &[Modulator]
        ensures { result.now ≡ (tables_of self.now.bags).mods }
    {
        &self.mods
    }
}
