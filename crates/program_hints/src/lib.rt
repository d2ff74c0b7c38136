//! What helps a person with a fault: the line that it is about, the token that is wrong, what is expected there, and
//! what uses a member of a bank. Nothing here is specified; each call is only proved not to panic.
#![tactic(auto)]

mod expected;
mod forms;
mod joins;
mod live_forms;
mod live_hints;
mod misplaced;
mod note_hints;
mod numbers;
mod overridden;
mod refusals;
mod remarks;
mod row_hints;
mod script_hints;
mod source_line;
mod users;
mod word_hints;

pub use live_hints::remark_on_live_line;
pub use misplaced::remark_on_path;
pub use overridden::first_overridden;
pub use refusals::remark_on_refusal;
pub use remarks::Remarks;
pub use source_line::{remark_on_notes, remark_on_row, remark_on_script};
