//! Computes edits that lead from one bank to another. The edits are proved to lead there; their number is
//! kept small by heuristics.
#![tactic(auto)]

mod two_banks;

pub use two_banks::difference;
