//! Whether parts are a valid bank; how long its lists are in a file; and the limits of these lengths.
#![tactic(auto)]

mod laws;
mod limits;
mod totals;
mod validity;

pub use laws::limits_agree;
pub use limits::Limit;
pub use totals::{LevelTotals, Totals, totals_of, totals_with};
pub use validity::{is_valid, valid_totals};
