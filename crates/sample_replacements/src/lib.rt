//! The edits that put a recording in the place of a sample, or of both samples of a pair.
#![tactic(auto)]

mod fault;
mod laws;
mod pairs;
mod replacing;

pub use fault::ReplaceFault;
pub use laws::replacing_keeps;
pub use pairs::pair_of;
pub use replacing::replacement_edits;
