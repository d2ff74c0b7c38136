//! Which flat lists are those of owners with their bags.
ghost use Rattle.std.specs.Prelude.{◌≡◌, ◌↔◌, List, IsTrue, MatchOption};
ghost use Rattle.flat_records.specs.Bags.{Bag};
ghost use Rattle.flat_records.specs.Begins.{AreFlat, EndsAt, AreBegins};

use crate::bags::{Bags, Recs};
use crate::indexes::are_rising;
use crate::owned::OwnerBags;

impl OwnerBags {
    /// The owners with these starts and records, or `None` if there are none. The last start is the number of all bags.
    /// Allocates nothing.
    pub fn from_flat(begins: Vec<u16>, recs: Recs) -> Option<OwnerBags>
        ensures { MatchOption result ((owners : List (List Bag)) → ¬ AreFlat begins.items recs owners)
            (λ r. AreFlat begins.items recs r.owners) }
    {
        let Some(bags) = Bags::from_recs(recs) else {
            return None;
        };
        if !are_begins(&begins, bags.bag_count()) {
            return None;
        }
        Some(OwnerBags { begins, bags })
    }

    /// The owners with these starts and records, which must be those of some owners. Checks and allocates nothing.
    pub fn from_sound_flat(begins: Vec<u16>, recs: Recs) -> OwnerBags
        ghost owners: { List (List Bag) }
        requires { AreFlat begins.items recs owners }
        ensures { result.owners ≡ owners }
    {
        let bags = Bags::from_sound_recs(recs);
        OwnerBags { begins, bags }
    }
}

fn are_begins(begins: &[u16], count: usize) -> bool
    ensures { IsTrue result ↔ AreBegins begins.now count }
{
    matches!(begins.first(), Some(0)) && end_at(begins, count) && are_rising(begins)
}

fn end_at(begins: &[u16], count: usize) -> bool
    ensures { IsTrue result ↔ EndsAt begins.now count }
{
    match begins.last() {
        Some(&last) => last as usize == count,
        None => false,
    }
}
