//! The fixed-size records of the nine lists in `pdta` of a SoundFont bank, and tables of them borrowed from the file's
//! bytes (SoundFont 2.04, section 7).
#![tactic(auto)]

mod encoding;
mod head;
mod laws;
mod table;
mod zone;

pub use head::{InstrumentHead, PresetHead, SampleHead};
pub use laws::records_law;
pub use table::{Encoded, Record, Records, Table};
pub use zone::{Bag, Generator};
