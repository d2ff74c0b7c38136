//! Amounts that are numbers of a list's members.
ghost use Rattle.std.specs.Prelude.{◌≡◌, map, All};
ghost use Rattle.flat_records.specs.Bags.{Bag, gens_in};
ghost use Rattle.flat_records.specs.Renumbered.{bag_renumbered, CanRenumber, IsOnlyLast};
ghost use Rattle.flat_records.specs.Owned.{all_bags};

use crate::owned::OwnerBags;
use base_numbered_lists::Renumbering;

impl OwnerBags {
    /// Renumbers all amounts of an operator, which are numbers of a list's members. Only the last generator of a bag
    /// may have the operator. Allocates nothing.
    pub fn renumber(&mut self, operator: u16, by: Renumbering)
        requires numbers { All (CanRenumber operator by) (gens_in (all_bags self.old.owners)) }
        requires last { All (IsOnlyLast operator) (all_bags self.old.owners) }
        ensures owners { self.new.owners ≡ map (λ bags. map (bag_renumbered operator by) bags) self.old.owners }
        ensures spare { self.new.spare ≡ self.old.spare }
        ensures spare_owners { self.new.spare_owners ≡ self.old.spare_owners }
    {
        self.bags.renumber(operator, by);
    }
}
