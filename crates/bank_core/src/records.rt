//! Reads the records of a bank's presets and instruments as they are in a file. Nothing here allocates.
ghost use Rattle.std.specs.Prelude.{◌≡◌, slice_get};
ghost use Rattle.bank_parts.specs.FlatLists.{flat_of, lists_of};
ghost use Rattle.bank_core.specs.Records.{record_count};

use crate::bank::Bank;
use bank_parts::{OwnerHead, Owners};
use generators::Level;
use modulators::Modulator;

/// The lists of records of presets, or of instruments, in a file (SoundFont 2.04, sections 7.2 to 7.9).
#[derive(Clone, Copy, Debug, PartialEq, Eq)]
pub enum Part {
    /// `phdr` or `inst`.
    Heads,
    /// `pbag` or `ibag`.
    Bags,
    /// `pgen` or `igen`.
    Gens,
    /// `pmod` or `imod`.
    Mods,
}

impl<'a> Bank<'a> {
    /// The length of a list with its terminal: 1 to 65,536.
    pub fn rec_len(&self, level: Level, part: Part) -> u32
        ensures { result ≡ record_count (flat_of level self.now) part }
    {
        match level {
            Level::Preset => list_len(self.presets(), part) as u32,
            Level::Inst => list_len(self.instruments(), part) as u32,
        }
    }

    /// The index of the first bag of preset or instrument `i`; the number of all bags for the terminal, and none
    /// after it.
    pub fn bag_of(&self, level: Level, i: u32) -> Option<u16>
        ensures { result ≡ slice_get (flat_of level self.now).first_bags i }
    {
        let first_bags = match level {
            Level::Preset => self.presets().first_bags(),
            Level::Inst => self.instruments().first_bags(),
        };
        first_bags.get(i as usize).copied()
    }

    /// The indexes of the first generator and the first modulator of bag `k`; the numbers of all generators and
    /// modulators for the terminal, and none after it.
    pub fn bag(&self, level: Level, k: u32) -> Option<(u16, u16)>
        ensures { result ≡ slice_get (flat_of level self.now).bags k }
    {
        let bags = match level {
            Level::Preset => self.presets().bag_records(),
            Level::Inst => self.instruments().bag_records(),
        };
        bags.get(k as usize).copied()
    }

    /// The operator and the amount of generator `j` of all; zeros for the terminal, and none after it. The target of
    /// a zone is its last generator.
    pub fn gen_rec(&self, level: Level, j: u32) -> Option<(u16, u16)>
        ensures { result ≡ slice_get (flat_of level self.now).gens j }
    {
        let gens = match level {
            Level::Preset => self.presets().gen_records(),
            Level::Inst => self.instruments().gen_records(),
        };
        gens.get(j as usize).copied()
    }

    /// Modulator `j` of all; zeros for the terminal, and none after it.
    pub fn mod_rec(&self, level: Level, j: u32) -> Option<Modulator>
        ensures { result ≡ slice_get (flat_of level self.now).mods j }
    {
        let mods = match level {
            Level::Preset => self.presets().mod_records(),
            Level::Inst => self.instruments().mod_records(),
        };
        mods.get(j as usize).copied()
    }
}

fn list_len<H: OwnerHead>(owners: &Owners<H>, part: Part) -> usize
    ensures { result ≡ record_count (lists_of H.LEVEL owners.now) part }
{
    match part {
        Part::Heads => owners.first_bags().len(),
        Part::Bags => owners.bag_records().len(),
        Part::Gens => owners.gen_records().len(),
        Part::Mods => owners.mod_records().len(),
    }
}
