//! The numbers of a list's members after an insertion, a removal or a move.
ghost use Rattle.std.specs.Prelude.{◌≡◌, ◌<◌, ◌^◌, map, All};
ghost use Rattle.base_numbered_lists.specs.Renumbered.{renumbered};
ghost use Rattle.base_numbered_lists.specs.declared.renumbering.Renumbering.TheVariants as kinds;

/// A change of a list that gives its members new numbers, counted from 0.
#[derive(Debug, Clone, Copy, PartialEq, Eq)]
pub enum Renumbering {
    /// A member is inserted as number `at`: each number from `at` on grows by one.
    Insertion { at: u32 },
    /// Member `at` is removed: each number above `at` falls by one.
    Removal { at: u32 },
    /// Member `from` becomes member `to`: each number that it passes falls by one on its way up, and grows by one on
    /// its way down.
    Move { from: u32, to: u32 },
}

// Above all numbers of 16 bits.
const NO_NUMBER: u32 = u32::MAX;

impl Renumbering {
    /// The new number of the member that had this one. It must fit into 16 bits.
    pub fn number_after(self, number: u16) -> u16
        requires { renumbered self number < 2 ^ 16 }
        ensures { result ≡ renumbered self number }
    {
        // In a loop over numbers, the compiler computes these once.
        let (removed, inserted, moved) = match self {
            Renumbering::Insertion { at } => (NO_NUMBER, at, at),
            Renumbering::Removal { at } => (at, NO_NUMBER, at),
            Renumbering::Move { from, to } => (from, to, to),
        };
        if removed == u32::from(number) {
            return moved as u16;
        }
        after_insertion(inserted, after_removal(removed, number))
    }
}

// Both add a test's result in place of a branch, which a list's numbers, in no order, would mispredict.

fn after_insertion(at: u32, number: u16) -> u16
    requires { renumbered (kinds.Insertion at) number < 2 ^ 16 }
    ensures { result ≡ renumbered (kinds.Insertion at) number }
{
    number + u16::from(at <= u32::from(number))
}

fn after_removal(at: u32, number: u16) -> u16
    ensures { result ≡ renumbered (kinds.Removal at) number }
{
    number - u16::from(at < u32::from(number))
}

/// A type with numbers of a list's members, which can be renumbered after a change of the list.
pub trait Renumber {
    ghost use Rattle.base_numbered_lists.specs.declared.renumbering.Renumbering.{Renumbering};

    /// Each renumbered number fits into 16 bits.
    ghost can_renumber: { Renumbering → Self → Type 0 };

    /// The value with each number renumbered.
    ghost with_new_numbers: { Renumbering → Self → Self };

    /// Renumbers each number in it. Allocates nothing.
    fn renumber(&mut self, by: Renumbering)
        requires { can_renumber by self.old }
        ensures { self.new ≡ with_new_numbers by self.old };
}

/// Renumbers each member of a slice.
#[tactic(auto, using(std::proofs::lemmas::List::Edits::map_over_more))]
pub fn renumber_all<T: Renumber>(members: &mut [T], by: Renumbering)
    requires { All (T.can_renumber by) members.old }
    ensures { members.new ≡ map (T.with_new_numbers by) members.old }
{
    for member in members.iter_mut() {
        member.renumber(by);
    }
}
