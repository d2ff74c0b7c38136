//! Insertion and removal of whole presets or instruments.
ghost use Rattle.bank_parts.specs.Room.{AreStorable};
ghost use Rattle.std.specs.Prelude.{◌≡◌, ◌↔◌, IsTrue, ◌<◌, ◌≤◌, ◌++◌, ◌∷◌, [], Some, length, insert, remove, slice_get, IfOk, IfErr, OnOk, OnErr};

use crate::bag_changes::append_owner;
use crate::heads::OwnerHead;
use crate::owners::Owners;
use crate::parts::ZoneOwner;
use crate::room::{can_hold, has_operator, make_room};
use sf_base::OutOfMemory;
use std::alloc::Global;

impl<H: OwnerHead> Owners<H> {
    /// Inserts a preset or an instrument as number `i`; later ones move up by one. If an allocation fails, the list
    /// is unchanged and the argument is returned.
    pub fn insert(&mut self, i: usize, owner: ZoneOwner<H>) -> Result<(), ZoneOwner<H>>
        requires place { i ≤ length self.old }
        requires storable { AreStorable H.LEVEL (insert self.old i owner) }
        ensures ok { OnOk result (self.new ≡ insert self.old i owner) }
        ensures err { OnErr result (self.new ≡ self.old) }
        ensures value_returned { IfErr result (λ back. back ≡ owner) }
    {
        owner.fits();
        let operator = Self::operator();
        let Ok(()) = make_room(&mut self.bags, 1, owner.records()) else {
            return Err(owner);
        };
        let Ok(()) = self.heads.insert(i, owner.head) else {
            return Err(owner);
        };
        let last = self.bags.owner_count();
        append_owner(&mut self.bags, operator, &owner);
        self.bags.move_owner(last, i);
        Ok(())
    }

    /// Whether the flat lists can hold one more: their records of each kind stay below 65,536, and none of its maps
    /// has the operator of targets.
    pub fn has_room_for(&self, owner: &ZoneOwner<H>) -> bool
        ensures { IsTrue result ↔ AreStorable H.LEVEL (self.now ++ owner.now ∷ []) }
    {
        owner.fits();
        !has_operator(Self::operator(), owner) && can_hold(&self.bags, owner.records())
    }

    /// Appends one, for which [`has_room_for`](Owners::has_room_for) must hold. On `OutOfMemory` the list is
    /// unchanged.
    pub fn push(&mut self, owner: ZoneOwner<H>) -> Result<(), OutOfMemory>
        requires { AreStorable H.LEVEL (self.old ++ owner ∷ []) }
        ensures ok { OnOk result (self.new ≡ self.old ++ owner ∷ []) }
        ensures err { OnErr result (self.new ≡ self.old) }
    {
        let last = self.len();
        let Ok(()) = self.insert(last, owner) else {
            return Err(OutOfMemory);
        };
        Ok(())
    }

    /// Removes number `i` and returns it; later ones move down by one. On `OutOfMemory` nothing changes.
    pub fn remove(&mut self, alloc: Global, i: usize) -> Result<ZoneOwner<H>, OutOfMemory>
        requires { i < length self.old }
        ensures value { IfOk result (λ owner. slice_get self.old i ≡ Some owner) }
        ensures change { OnOk result (self.new ≡ remove self.old i) }
        ensures err { OnErr result (self.new ≡ self.old) }
    {
        let owner = self.copy_owner(alloc, i)?;
        self.heads.remove(i);
        self.bags.cut_owner(i);
        Ok(owner)
    }
}
