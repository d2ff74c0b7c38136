//! Numbers of members, as edits have them. A number that is too large becomes the maximum, which no member has.

/// The number of a member.
pub(crate) fn member_number(place: usize) -> u32 {
    u32::try_from(place).unwrap_or(u32::MAX)
}

/// The number of a target or a link.
pub(crate) fn target_number(place: usize) -> u16 {
    u16::try_from(place).unwrap_or(u16::MAX)
}
