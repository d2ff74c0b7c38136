//! The world of files as a program sees it: files that are read whole, and texts that are saved whole.
#![tactic(auto)]

mod checks;
mod faults;
mod host;
mod input_fault;
mod memory;
mod output_reason;
mod saved;

pub use checks::{begins_as_bank, check_apart, check_no_bank};
pub use faults::{PairFault, Which};
pub use host::Host;
pub use input_fault::InputFault;
pub use memory::{MemoryHost, MemoryStream};
pub use output_reason::reason_of_output;
