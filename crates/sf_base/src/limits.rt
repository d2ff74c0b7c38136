//! The limits of a bank, a note list and a file.

/// The most bytes of a name: the size of the SoundFont standard's name fields.
pub const NAME_LENGTH: usize = 20;

/// The most bytes of each text of a bank except the comment.
pub const TEXT_LENGTH: usize = 255;

/// The most bytes of a bank's comment (ICMT).
pub const COMMENT_LENGTH: usize = 65_535;

/// The most presets of a bank.
pub const PRESETS: usize = 65_535;

/// The most instruments of a bank.
pub const INSTRUMENTS: usize = 65_535;

/// The most samples of a bank.
pub const SAMPLES: usize = 65_535;

/// The most zones of all presets, and of all instruments, including each global zone that has a generator or modulator.
/// `Totals::broken` of `bank_validity` tests it for edits: cause 37. `check_counts` of `sf_reader` tests it for files, by
/// [`RECORDS`], since a list has a record for each zone and a terminal: fault 18.
pub const ZONES: usize = 65_535;

/// The most generators of all presets, and of all instruments, including the targets.
pub const GENERATORS: usize = 65_535;

/// The most modulators of all presets, and of all instruments.
pub const MODULATORS: usize = 65_535;

/// The most records of each list of `pdta`, including the terminal.
pub const RECORDS: usize = 65_536;

/// The number of zero points after the points of each sample in a file.
pub const ZERO_POINTS: usize = 46;

/// The most points of all samples, including the zero points after each sample.
pub const POINTS: u64 = 500_000_000;

/// The most bytes of a file that the program reads: the largest size in a RIFF chunk header, and the header's own 8
/// bytes.
pub const FILE_LENGTH: u64 = 4_294_967_303;
