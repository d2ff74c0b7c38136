//! The table of a kit for an instrument: [`KitTable`] lists its zones as far as a table has room for them, each with the
//! WAVE file of its sample, and marks the others by comments. [`kits_read_back`] states that it is read as these zones.
#![tactic(auto)]

mod laws;
mod settings;
mod table;
mod zones;

pub use laws::kits_read_back;
pub use table::KitTable;
