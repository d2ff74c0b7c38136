//! Indexes of records into other lists.
ghost use Rattle.std.specs.Prelude.{◌≡◌, ℕ, map};
ghost use Rattle.bank_format.specs.FaultChecks.{Passes};
ghost use Rattle.bank_format.specs.ReadChecks.{index_checks};

use bank_format::{ReadFault, RecordedHead};
use hydra_records::{Bag, Record, Table};
use std::marker::PhantomData;

/// An index in a record of type `R`, into another list.
pub(crate) trait Index<R> {
    /// The index.
    ghost index: { R → ℕ };

    /// Returns the index.
    fn of(row: &R) -> u16
        ensures { result ≡ index row.now };
}

/// The first bag of a preset or an instrument with head `H`.
pub(crate) struct FirstBag<H>(PhantomData<H>);

/// The first generator of a bag.
pub(crate) enum FirstGenerator {}

/// The first modulator of a bag.
pub(crate) enum FirstModulator {}

impl<H: RecordedHead> Index<H::Record> for FirstBag<H> {
    ghost index = { H.headers.first_bag };

    fn of(head: &H::Record) -> u16 {
        H::first_bag(head)
    }
}

impl Index<Bag> for FirstGenerator {
    ghost index = { λ bag. bag.gens };

    fn of(bag: &Bag) -> u16 {
        bag.gens
    }
}

impl Index<Bag> for FirstModulator {
    ghost index = { λ bag. bag.mods };

    fn of(bag: &Bag) -> u16 {
        bag.mods
    }
}

/// Checks that the indexes into a list of `count` records are non-decreasing, and at most that of its last record.
#[tactic(auto, unfolding(bank_format::specs::ReadChecks::index_checks))]
pub(crate) fn check_indexes<R: Record + Copy, I: Index<R>>(
    records: &Table<R>,
    count: usize,
) -> Result<(), ReadFault>
    ensures { Passes (λ u. u) result (index_checks (map I.index records.now) count) tt }
{
    let mut last = 0;
    for row in records.iter() {
        let index = I::of(&row);
        if index < last {
            return Err(ReadFault::BagOrder);
        }
        last = index;
    }
    if last as usize > count.saturating_sub(1) {
        return Err(ReadFault::IndexOutside);
    }
    Ok(())
}
