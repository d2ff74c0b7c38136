//! Numbers of members of a bank.

/// A count or an index of a list as a number of 32 bits, which all lists of a bank allow.
pub(crate) fn numbered(count: usize) -> u32 {
    u32::try_from(count).unwrap_or(u32::MAX)
}
