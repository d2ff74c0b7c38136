//! The targets of zones when the list of instruments or samples changes.
use crate::heads::OwnerHead;
use crate::owners::Owners;
use base_numbered_lists::{Renumber, Renumbering};

/// Presets hold numbers of instruments as targets of their zones, and instruments hold numbers of samples.
impl<H: OwnerHead> Renumber for Owners<H> {
    ghost use Rattle.std.specs.Prelude.{map, All};
    ghost use Rattle.bank_parts.specs.Renumbered.{owner_renumbered, CanRenumberOwner};

    ghost can_renumber = { λ by owners. All (CanRenumberOwner by) owners };

    ghost with_new_numbers = { λ by owners. map (owner_renumbered by) owners };

    fn renumber(&mut self, by: Renumbering) {
        self.bags.renumber(H::LEVEL.target_operator(), by);
    }
}
