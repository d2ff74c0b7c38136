//! Renumbers targets of zones, which are numbers of a list's members.
ghost use Rattle.std.specs.Prelude.{◌≡◌, map, All, slice_get};
ghost use Rattle.std.specs.Option.{IsSomeAnd};
ghost use Rattle.base_numbered_lists.specs.Moved.{changed};
ghost use Rattle.flat_records.specs.Bags.{AreRead, bags_of_records, gens_in, tables_of};
ghost use Rattle.flat_records.specs.Renumbered.{gen_renumbered, bag_renumbered, CanRenumber, IsOnlyLast, CanRenumberBag};

use crate::bags::Bags;
use base_numbered_lists::Renumbering;
use modulators::Modulator;

impl Bags {
    /// Renumbers all amounts of an operator, which are numbers of a list's members. Only the last generator of a bag
    /// may have the operator, as a zone's target does (SoundFont 2.04, sections 7.5 and 7.9). Allocates nothing.
    pub fn renumber(&mut self, operator: u16, by: Renumbering)
        requires numbers { All (CanRenumber operator by) (gens_in self.old.bags) }
        requires last { All (IsOnlyLast operator) self.old.bags }
        ensures bags { self.new.bags ≡ map (bag_renumbered operator by) self.old.bags }
        ensures spare { self.new.spare ≡ self.old.spare }
    {
        let mods = self.mods.as_slice();
        renumber_last_of_each(&self.bags, self.gens.as_mut_slice(), mods, operator, by);
    }
}

// Renumbers the last generator of each bag. It has slices, since a loop over fields of `self` would load their
// addresses again after each write.
fn renumber_last_of_each(
    bags: &[(u16, u16)],
    gens: &mut [(u16, u16)],
    _mods: &[Modulator],
    operator: u16,
    by: Renumbering,
)
    requires records { AreRead (record { bags = bags.now; gens = gens.old; mods = _mods.now }) }
    requires numbers { All (CanRenumber operator by) (gens_in (bags_of_records bags.now gens.old _mods.now)) }
    requires last { All (IsOnlyLast operator) (bags_of_records bags.now gens.old _mods.now) }
    ensures { record { bags = bags.now; gens = gens.new; mods = _mods.now } ≡ tables_of (map (bag_renumbered operator by) (bags_of_records bags.now gens.old _mods.now)) }
{
    for k in 0..bags.len() - 1 {
        renumber_last(bags, gens, _mods, k, operator, by);
    }
}

// The same for bag k.
fn renumber_last(
    bags: &[(u16, u16)],
    gens: &mut [(u16, u16)],
    _mods: &[Modulator],
    k: usize,
    operator: u16,
    by: Renumbering,
)
    requires records { AreRead (record { bags = bags.now; gens = gens.old; mods = _mods.now }) }
    requires there { IsSomeAnd (slice_get (bags_of_records bags.now gens.old _mods.now) k) (CanRenumberBag operator by) }
    ensures { record { bags = bags.now; gens = gens.new; mods = _mods.now } ≡ tables_of (changed (bags_of_records bags.now gens.old _mods.now) k (bag_renumbered operator by)) }
{
    let start = bags[k].0 as usize;
    let end = bags[k + 1].0 as usize;
    if start < end {
        renumber_generator(&mut gens[end - 1], operator, by);
    }
}

fn renumber_generator(generator: &mut (u16, u16), operator: u16, by: Renumbering)
    requires { CanRenumber operator by generator.old }
    ensures { generator.new ≡ gen_renumbered operator by generator.old }
{
    let (other, number) = *generator;
    if other == operator {
        generator.1 = by.number_after(number);
    }
}
