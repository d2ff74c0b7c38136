//! The numbers that calls return. Other numbers are those of `docs/FAULTS.md`.

/// The call is done.
pub const OK: i32 = 0;

/// An allocation failed.
pub const OUT_OF_MEMORY: i32 = 38;

/// The handle is null.
pub const NULL: i32 = 90;

/// The handle is closed.
pub const NOT_OPEN: i32 = 91;

/// The handle is open already.
pub const IN_USE: i32 = 92;

/// The length of a buffer doesn't fit.
pub const BAD_LENGTH: i32 = 93;

/// The note ends after frame 100,000,000, or its key or velocity is above 127.
pub const BAD_NOTE: i32 = 94;

/// No list of a bank has this number.
pub const BAD_LIST: i32 = 95;

/// The list has no member with this number.
pub const NO_MEMBER: i32 = 96;

/// The bytes are not the pool of the script.
pub const BAD_POOL: i32 = 97;
