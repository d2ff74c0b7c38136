//! Tables of kits: texts that list the zones of an instrument, each with the file of its recording.
//!
//! A line is `FILE KEY[..KEY] [LOW..HIGH] [root KEY] [pan P] [class N]`, with the lines, blanks and comments of
//! [`script_tokens`]. FILE is a word, or any bytes between quotes. [`parse_kit`] reads the rows of a text,
//! and [`kit_files`] lists their distinct files. [`put_kit_zone`] writes a zone so that it is read again ([`tables_read_back`]).
#![tactic(auto)]

mod fault;
mod files;
mod laws;
mod limits;
mod parsing;
mod row;
mod row_texts;
mod zone;
mod zone_parsers;

pub use fault::KitFault;
pub use files::{KitFile, KitFiles, kit_files};
pub use laws::tables_read_back;
pub use limits::{FARTHEST_PAN, HIGHEST_CLASS, HIGHEST_KEY, MOST_ROWS};
pub use parsing::parse_kit;
pub use row::KitRow;
pub use row_texts::put_kit_zone;
pub use zone::KitZone;
