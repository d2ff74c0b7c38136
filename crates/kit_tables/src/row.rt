//! A line of a table.

use crate::zone::KitZone;

/// A line of a table: a zone, and the file of its recording.
#[derive(Debug, Clone, Copy)]
pub struct KitRow<'t> {
    /// The number of the line, counted from 1.
    pub line: u64,
    /// The path of the recording, as the table has it.
    pub file: &'t str,
    pub zone: KitZone,
}
