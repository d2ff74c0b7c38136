//! Conversion between `Owners` and the flat lists of a file.
ghost use Rattle.std.specs.Prelude.{◌≡◌, List, MatchOption, IfSome};
ghost use Rattle.std.specs.List.{AllByRecursion};
ghost use Rattle.generators.specs.Levels.{target_operator};
ghost use Rattle.bank_parts.specs.declared.parts.ZoneOwner.{ZoneOwner};
ghost use Rattle.bank_parts.specs.Bagged.{IsPlainOwner};
ghost use Rattle.bank_parts.specs.FlatLists.{AreFlat, lists_of, lists_with, owners_read};

use crate::heads::OwnerHead;
use crate::level_contents::gens_fit;
use crate::own_bags::are_all_bags;
use crate::owners::Owners;
use bank_linked_members::DoubleEndedList;
use base_numbered_lists::NumberedList;
use flat_records::{OwnerBags, Recs};
use modulators::Modulator;

impl<H: OwnerHead> Owners<H> {
    /// The presets or instruments with these heads and flat lists; none if the lists form no such owners, or if one
    /// of their maps has the operator of targets. Allocates nothing.
    pub fn from_flat(heads: NumberedList<H>, first_bags: Vec<u16>, recs: Recs) -> Option<Owners<H>>
        ensures lists { MatchOption result
            ((owners : List (ZoneOwner H)) → AllByRecursion (IsPlainOwner (target_operator H.LEVEL)) owners
            → ¬ AreFlat H.LEVEL heads (record { first_bags = first_bags.items; bags = recs.bags; gens = recs.gens; mods = recs.mods }) owners)
            (λ owners. AreFlat H.LEVEL heads (record { first_bags = first_bags.items; bags = recs.bags; gens = recs.gens; mods = recs.mods }) owners) }
        ensures plain { IfSome result (λ owners. AllByRecursion (IsPlainOwner (target_operator H.LEVEL)) owners) }
    {
        let Some(bags) = OwnerBags::from_flat(first_bags, recs) else {
            return None;
        };
        if heads.len() != bags.owner_count() {
            return None;
        }
        if !are_all_bags(&bags, Self::operator()) {
            return None;
        }
        gens_fit(bags.gen_records());
        let heads = DoubleEndedList::from_vec(heads.into_vec());
        Some(Owners { heads, bags })
    }

    /// The presets or instruments with these heads and flat lists, which must be those of owners whose maps lack the
    /// operator of targets. Checks and allocates nothing.
    pub fn from_sound_flat(heads: NumberedList<H>, first_bags: Vec<u16>, recs: Recs) -> Owners<H>
        requires lists { AreFlat H.LEVEL heads (lists_with first_bags.items recs) (owners_read H.LEVEL heads first_bags.items recs) }
        requires plain { AllByRecursion (IsPlainOwner (target_operator H.LEVEL)) (owners_read H.LEVEL heads first_bags.items recs) }
        ensures { result ≡ owners_read H.LEVEL heads first_bags.items recs }
    {
        let bags = OwnerBags::from_sound_flat(first_bags, recs);
        let heads = DoubleEndedList::from_vec(heads.into_vec());
        Owners { heads, bags }
    }

    /// The index of each owner's first bag, and last the number of bags (SoundFont 2.04, sections 7.2 and 7.6,
    /// `wPresetBagNdx` and `wInstBagNdx`).
    pub fn first_bags(&self) -> &[u16]
        ensures { result.now ≡ (lists_of H.LEVEL self.now).first_bags }
    {
        self.bags.begins()
    }

    /// The indexes of each bag's first generator and first modulator, and last how many there are (sections 7.3 and
    /// 7.7). Each zone has a bag, and so has a global zone that is not empty.
    pub fn bag_records(&self) -> &[(u16, u16)]
        ensures { result.now ≡ (lists_of H.LEVEL self.now).bags }
    {
        self.bags.bag_records()
    }

    /// The generators of all bags as operator and amount, the target last in each zone, then the terminal (sections
    /// 7.5 and 7.9).
    pub fn gen_records(&self) -> &[(u16, u16)]
        ensures { result.now ≡ (lists_of H.LEVEL self.now).gens }
    {
        self.bags.gen_records()
    }

    /// The modulators of all bags, then the terminal (sections 7.4 and 7.8).
    pub fn mod_records(&self) -> &[Modulator]
        ensures { result.now ≡ (lists_of H.LEVEL self.now).mods }
    {
        self.bags.mod_records()
    }
}
