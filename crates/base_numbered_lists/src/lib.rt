//! Lists of numbered members, how their numbers change with the list, and the laws by which a change is undone.
#![tactic(auto)]

mod in_place;
mod laws;
mod list;
mod renumbering;

pub use in_place::{insert_within, move_within};
pub use laws::{
    exchange_undone, insertion_undone, lengths_follow, move_undone, numbers_follow,
    numbers_restored, numbers_stay_below, removal_undone, renumbering_undone,
};
pub use list::NumberedList;
pub use renumbering::{Renumber, Renumbering, renumber_all};
