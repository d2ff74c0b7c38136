//! The effective key and velocity ranges of zones; split of a zone in two at a key or a velocity, and join of two
//! neighbouring zones.
#![tactic(auto)]

mod agreement;
mod axes;
mod laws;
mod ranges;
mod records;
mod splitting;

pub use axes::{Axis, Keep};
pub use laws::splits_and_joins_undone;
pub use ranges::{range_operator, zone_range};
pub use records::split_records;
pub use splitting::{is_joinable, is_splittable, join_zones, split_zone};
