//! The limits of a note and of a note list.

/// The maximum number of notes in a list.
pub const MOST_NOTES: usize = 65_535;

/// The last frame at which a note may end.
pub const LAST_FRAME: u64 = 100_000_000;

/// The highest key of a note.
pub const HIGHEST_KEY: u8 = 127;

/// The highest velocity of a note.
pub const HIGHEST_VELOCITY: u8 = 127;
