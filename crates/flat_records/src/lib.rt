//! The bags, generators and modulators of one level in flat lists, as in the file, and which bags belong to which
//! preset or instrument.
#![tactic(auto)]

mod bag_changes;
mod bags;
mod index_pairs;
mod index_shift;
mod indexes;
mod owned;
mod owned_bag_changes;
mod owner_changes;
mod owner_reading;
mod owner_renumbering;
mod pieces;
mod reading;
mod renumbering;

pub use bags::{Bags, Recs};
pub use owned::OwnerBags;
pub use reading::tables_of_bags_are_tables;
