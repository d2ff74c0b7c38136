//! Live sessions: a bank that is edited and played line by line.
#![tactic(auto)]

mod answering;
mod fault;
mod frames;
mod held;
mod laws;
mod line_reader;
mod live;
mod meter;
mod pedals;
mod performance;
mod played;
mod recording;
mod request_reading;
mod requests;
mod run;
mod saving;

pub use fault::LiveFault;
pub use laws::{frames_follow_events, recordings_follow_events, saved_undo_leads_back};
pub use line_reader::{InputLines, LineReader};
pub use run::live_run;
pub use saving::{SessionFiles, UndoLines};
