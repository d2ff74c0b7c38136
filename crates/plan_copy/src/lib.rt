//! The plan that copies one member of a bank.
#![tactic(auto)]

mod checks;
mod copy_member;
mod fault;
mod numbers;
mod steps;

pub use checks::check_copy;
pub use copy_member::CopyMember;
pub use fault::CopyFault;
pub use plan_presets::CopiedMember;
