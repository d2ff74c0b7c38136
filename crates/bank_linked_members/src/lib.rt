//! Lists of numbered members with spare capacity at both ends, where a change moves only members near it; and lists
//! whose members may link to one another.
#![tactic(auto)]

mod double_ended;
mod linked;
mod members;
mod span;

pub use double_ended::DoubleEndedList;
pub use linked::Linked;
pub use members::LinkedMembers;
