//! The limits of a table and of its rows.

/// The maximum number of rows of a table.
pub const MOST_ROWS: usize = 65_535;

/// The highest key of a zone.
pub const HIGHEST_KEY: u8 = 127;

/// The highest exclusive class of a zone.
pub const HIGHEST_CLASS: u8 = 127;

/// The position of a zone at the right, in 0.1 %; at the left it is negative.
pub const FARTHEST_PAN: u16 = 500;
