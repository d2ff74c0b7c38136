//! The presets or the instruments of a bank, stored as flat lists of records.
ghost use Rattle.std.specs.Prelude.{◌≡◌, ◌<◌, ◌+◌, length, slice_get, [], Some, IfOk, IfSome};
ghost use Rattle.generators.specs.Levels.{target_operator};
ghost use Rattle.base_numbered_lists.specs.Moved.{moved, changed};
ghost use Rattle.bank_parts.specs.declared.parts.ZoneOwner.{ZoneOwner};
ghost use Rattle.bank_parts.specs.Owners.{head_at, with_head, zone_count_at};
ghost use Rattle.bank_parts.specs.Bagged.{global_bags};

use crate::bag_targets::ends_in;
use crate::heads::OwnerHead;
use bank_linked_members::DoubleEndedList;
use flat_records::OwnerBags;
use sf_base::OutOfMemory;
use std::alloc::Global;
use std::marker::Model;

/// Which zone of a preset or an instrument: the global zone, or the zone with this number.
#[derive(Clone, Copy, Debug, PartialEq, Eq)]
pub enum ZonePlace {
    Global,
    Zone(usize),
}

/// The presets or the instruments of a bank, in order. They are stored as in a file, as heads and flat lists of
/// records, so a zone cannot be borrowed whole, only its contents.
///
/// Flat lists hold at most 65,535 zones, generators and modulators in all, and no map with the operator of targets
/// (SoundFont 2.04, sections 7.3 to 7.9). A call that adds some requires that the result fits.
pub struct Owners<H: OwnerHead> {
    pub(crate) heads: DoubleEndedList<H>,
    pub(crate) bags: OwnerBags,
}

// Not derived: a derived drop is expanded and proved field by field at each exit of every function that holds the
// value; this one is a call.
impl<H: OwnerHead> Drop for Owners<H> {
    fn drop(self) {
        let Owners { heads: _, bags: _ } = self;
    }
}

impl<H: OwnerHead> Model for Owners<H> {
    ghost use Rattle.std.specs.Prelude.{List};
    ghost use Rattle.std.specs.Coded.{codes};
    ghost use Rattle.generators.specs.Levels.{target_operator};
    ghost use Rattle.generators.specs.contracts.gen_map.GenMap as gens;
    ghost use Rattle.bank_parts.specs.declared.parts.ZoneOwner.{ZoneOwner};
    ghost use Rattle.bank_parts.specs.Flat.{owners_in, AreRead};

    ghost Value = { List (ZoneOwner H) };

    ghost coded = { Prim.hlevel (codes, gens.the_row.coded) };

    ghost view = { λ l. owners_in (target_operator H.LEVEL) l.heads l.bags.owners };

    ghost invariant = { λ l. AreRead (target_operator H.LEVEL) l.heads l.bags.owners };
}

impl<H: OwnerHead> Owners<H> {
    /// An empty list with capacity for `count` owners.
    pub fn with_capacity(alloc: Global, count: usize) -> Result<Owners<H>, OutOfMemory>
        ensures { IfOk result (λ owners. owners ≡ []) }
    {
        let heads = DoubleEndedList::from_vec(Vec::with_capacity(alloc, count)?);
        let mut bags = OwnerBags::new(alloc)?;
        bags.reserve(count, 0, 0, 0)?;
        Ok(Owners { heads, bags })
    }

    /// How many owners there are.
    pub fn len(&self) -> usize
        ensures { result ≡ length self.now }
    {
        self.heads.len()
    }

    /// The head of owner `i`.
    pub fn head(&self, i: usize) -> &H
        requires { i < length self.now }
        ensures { head_at self.now i ≡ Some result.now }
    {
        self.heads.member(i)
    }

    /// Replaces the head of owner `i` and returns the old one. Allocates nothing.
    pub fn replace_head(&mut self, i: usize, head: H) -> H
        requires { i < length self.old }
        ensures value { head_at self.old i ≡ Some result }
        ensures change { self.new ≡ changed self.old i (with_head head) }
    {
        self.heads.replace(i, head)
    }

    /// Moves owner `from` to number `to`; the others keep their order. Allocates nothing.
    pub fn move_member(&mut self, from: usize, to: usize)
        requires from { from < length self.old }
        requires to { to < length self.old }
        ensures { self.new ≡ moved self.old from to }
    {
        self.heads.move_member(from, to);
        self.bags.move_owner(from, to);
    }

    /// How many zones owner `i` has, not counting the global zone.
    pub fn zone_count(&self, i: usize) -> usize
        requires { i < length self.now }
        ensures { zone_count_at self.now i ≡ Some result }
    {
        let count = self.bags.bag_count(i);
        count - self.global_count(i)
    }

    // How many bags its global zone has: one, or none if it is empty.
    pub(crate) fn global_count(&self, i: usize) -> usize
        requires { i < length self.now }
        ensures { IfSome (slice_get self.now i) (λ (x : ZoneOwner H). result ≡ length (global_bags x.global)) }
    {
        let count = self.bags.bag_count(i);
        if count == 0 {
            return 0;
        }
        let first = self.bags.gens(i, 0);
        if ends_in(Self::operator(), first) {
            return 0;
        }
        1
    }

    // The operator of targets at this level.
    pub(crate) fn operator() -> u16
        ensures { result ≡ target_operator H.LEVEL }
    {
        H::LEVEL.target_operator()
    }
}
