//! A bank as text: the script that creates it from the empty bank of its minor version, and the script that
//! replaces a bank with another.
#![tactic(auto)]

mod laws;
mod links;
mod owners;
mod replacement;
mod samples;
mod script;
mod texts;
mod zones;

pub use laws::{
    edits_give_bank, edits_lead_anywhere, replacement_leads, text_determines_bank, text_gives_bank,
    text_lists_edits,
};
pub use replacement::Replacement;
pub use samples::SamplePoints;
pub use script::BankScript;
pub use zones::{put_global_of, put_zone_of};
