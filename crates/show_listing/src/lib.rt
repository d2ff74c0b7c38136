//! A bank as lines of text, the listing of `show`.
#![tactic(auto)]

mod counting;
mod listing;
mod members;
mod pieces;
mod points;
mod uses;
mod zones;

pub use listing::{Details, Listing};
