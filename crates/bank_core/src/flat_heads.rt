//! The records of the lists `phdr` and `inst`.
ghost use Rattle.std.specs.Prelude.{◌≡◌, ◌+◌, length, MatchOption};
ghost use Rattle.bank_core.specs.Heads.{head_records};

use bank_parts::Head;
use base_numbered_lists::NumberedList;
use sf_base::Name20;
use std::marker::Model;

/// A record of `phdr` or `inst`: the head of a preset or an instrument, and the index of its first bag (SoundFont
/// 2.04, sections 7.2 and 7.6). The terminal has no head, and the number of all bags as its index.
#[derive(Clone, Copy)]
pub struct HeadRecord<H> {
    pub head: Option<H>,
    pub first_bag: u16,
}

/// A record of `phdr`.
pub type PresetHead = HeadRecord<Head>;

/// A record of `inst`.
pub type InstHead = HeadRecord<Name20>;

/// The records of `phdr` or `inst`, the terminal last.
pub struct FlatHeads<H> {
    // Apart from the indexes, because shifting indexes is much faster in a list of their own.
    heads: NumberedList<H>,
    first_bags: Vec<u16>,
}

impl<H: Drop> Drop for FlatHeads<H> {
    fn drop(self) {
        let FlatHeads {
            heads: _,
            first_bags: _,
        } = self;
    }
}

impl<H> Model for FlatHeads<H> {
    ghost use Rattle.std.specs.Prelude.{◌≡◌, ◌+◌, List, length};
    ghost use Rattle.bank_core.specs.declared.flat_heads.HeadRecord.{HeadRecord};
    ghost use Rattle.bank_core.specs.Heads.{head_records};

    ghost Value = { List (HeadRecord H) };

    ghost view = { λ f. head_records f.heads f.first_bags.items };

    ghost invariant = { λ f. length f.first_bags.items ≡ length f.heads + 1 };
}

impl<H: Drop> FlatHeads<H> {
    /// The records of these heads with the indexes of their first bags, followed by the number of all bags; none
    /// unless `first_bags` is one longer than `heads`. Allocates nothing.
    pub fn new(heads: NumberedList<H>, first_bags: Vec<u16>) -> Option<FlatHeads<H>>
        ensures { MatchOption result (¬ (length first_bags.items ≡ length heads + 1)) (λ r. r ≡ head_records heads first_bags.items) }
    {
        if first_bags.is_empty() || first_bags.len() - 1 != heads.len() {
            return None;
        }
        Some(FlatHeads { heads, first_bags })
    }

    // The heads, and the indexes of their first bags.
    pub(crate) fn into_lists(self) -> (NumberedList<H>, Vec<u16>)
        ensures records { self ≡ head_records result.0 result.1.items }
        ensures size { length result.1.items ≡ length result.0 + 1 }
    {
        let FlatHeads { heads, first_bags } = self;
        (heads, first_bags)
    }
}
