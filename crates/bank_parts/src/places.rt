//! Reads the places of presets and instruments: the global zone and the numbered zones.
ghost use Rattle.std.specs.Prelude.{◌≡◌, ◌≤◌, ◌+◌, ◌↔◌, IsTrue, length, slice_get, Some, IfSome, IsSomeAnd};
ghost use Rattle.std.specs.FinMap.{get, len};
ghost use Rattle.std.specs.Option.{option_map};
ghost use Rattle.generators.specs.Gens.{FitGens};
ghost use Rattle.bank_parts.specs.declared.owners.ZonePlace.TheVariants as place;
ghost use Rattle.bank_parts.specs.declared.parts.ZoneOwner.{ZoneOwner};
ghost use Rattle.bank_parts.specs.Owners.{HasPlace, zone_count_at, target_at, gens_at, entries_at, mods_at};
ghost use Rattle.bank_parts.specs.Bagged.{global_bags, bag_number};

use crate::bag_targets::{last_amount, without_target};
use crate::heads::OwnerHead;
use crate::owners::{Owners, ZonePlace};
use generators::search_entries;
use modulators::Modulator;

impl<H: OwnerHead> Owners<H> {
    /// Whether owner `i` exists and has this place.
    pub fn has_place(&self, i: usize, place: ZonePlace) -> bool
        ensures { IsTrue result ↔ HasPlace self.now i place }
    {
        match place {
            ZonePlace::Global => i < self.len(),
            ZonePlace::Zone(k) => i < self.len() && k < self.zone_count(i),
        }
    }

    // The index of the bag of zone k among the bags of owner i; for the next zone after the last, the index it would
    // have.
    pub(crate) fn zone_bag(&self, i: usize, k: usize) -> usize
        requires { IsSomeAnd (zone_count_at self.now i) (λ count. k ≤ count) }
        ensures { IfSome (slice_get self.now i) (λ (x : ZoneOwner H). result ≡ length (global_bags x.global) + k) }
    {
        let _count = self.bags.bag_count(i);
        self.global_count(i) + k
    }

    // The index of the bag of a place among the bags of owner i; none for an empty global zone.
    pub(crate) fn place_bag(&self, i: usize, place: ZonePlace) -> Option<usize>
        requires { HasPlace self.now i place }
        ensures { IfSome (slice_get self.now i) (λ (x : ZoneOwner H). result ≡ bag_number place x) }
    {
        match place {
            ZonePlace::Global => {
                if self.global_count(i) == 0 {
                    return None;
                }
                Some(0)
            }
            ZonePlace::Zone(k) => Some(self.zone_bag(i, k)),
        }
    }

    /// The target of zone `k` of owner `i`: the number of an instrument or a sample.
    pub fn target(&self, i: usize, k: usize) -> u16
        requires { HasPlace self.now i (place.Zone k) }
        ensures { target_at self.now i k ≡ Some result }
    {
        let at = self.zone_bag(i, k);
        last_amount(self.bags.gens(i, at))
    }

    /// The generators of a place of owner `i` as operator and amount, in the order of a file.
    pub fn entries(&self, i: usize, place: ZonePlace) -> &[(u16, u16)]
        requires { HasPlace self.now i place }
        ensures value { entries_at self.now i place ≡ Some result.now }
        ensures fits { IfSome (gens_at self.now i place) FitGens }
    {
        match self.place_bag(i, place) {
            None => &[],
            Some(at) => without_target(Self::operator(), self.bags.gens(i, at)),
        }
    }

    // The generators of a place, given the index of its bag among the bags of owner i.
    pub(crate) fn bag_entries(&self, i: usize, _place: ZonePlace, at: usize) -> &[(u16, u16)]
        requires there { HasPlace self.now i _place }
        requires bag { IfSome (slice_get self.now i) (λ (x : ZoneOwner H). Some at ≡ bag_number _place x) }
        ensures { entries_at self.now i _place ≡ Some result.now }
    {
        without_target(Self::operator(), self.bags.gens(i, at))
    }

    /// How many generators a place of owner `i` has, not counting the target.
    pub fn gen_count(&self, i: usize, place: ZonePlace) -> usize
        requires { HasPlace self.now i place }
        ensures { option_map len (gens_at self.now i place) ≡ Some result }
    {
        self.entries(i, place).len()
    }

    /// How many modulators a place of owner `i` has.
    pub fn mod_count(&self, i: usize, place: ZonePlace) -> usize
        requires { HasPlace self.now i place }
        ensures { option_map length (mods_at self.now i place) ≡ Some result }
    {
        self.mods(i, place).len()
    }

    /// The modulators of a place of owner `i`, in order.
    pub fn mods(&self, i: usize, place: ZonePlace) -> &[Modulator]
        requires { HasPlace self.now i place }
        ensures { mods_at self.now i place ≡ Some result.now }
    {
        match self.place_bag(i, place) {
            None => &[],
            Some(at) => self.bags.mods(i, at),
        }
    }

    /// The amount of an operator at a place of owner `i`; none if it is not set.
    pub fn amount(&self, i: usize, place: ZonePlace, operator: u16) -> Option<u16>
        requires { HasPlace self.now i place }
        ensures { IfSome (gens_at self.now i place) (λ gens. result ≡ get gens operator) }
    {
        let entries = self.entries(i, place);
        match search_entries(entries, operator) {
            Ok(at) => Some(entries[at].1),
            Err(_) => None,
        }
    }
}
