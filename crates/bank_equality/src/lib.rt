//! Whether two banks, or their parts, are equal. Nothing here copies or allocates.
#![tactic(auto)]

mod bank;
mod heads;
mod owners;
mod points;
mod samples;
mod zones;

pub use bank::{are_equal, same_text, same_texts};
pub use heads::SameHead;
pub use owners::{same_owner, same_owners};
pub use points::same_points;
pub use samples::{same_sample, same_sample_head, same_samples};
pub use zones::{same_settings, same_zone, same_zones};
