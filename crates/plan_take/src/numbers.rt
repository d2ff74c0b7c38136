//! The numbers that members of the other bank have in the edited bank; `None` for a member that isn't there.
use bank_core::Kind;

/// The number of a member.
pub(crate) fn number_of(numbers: &[Option<u16>], member: usize) -> Option<u16> {
    *numbers.get(member)?
}

/// Sets the number of a member.
pub(crate) fn set_number(numbers: &mut [Option<u16>], member: usize, number: Option<u16>) {
    if let Some(place) = numbers.get_mut(member) {
        *place = number;
    }
}

/// Whether a member is needed, but has no number.
pub(crate) fn is_missing(needed: &[bool], numbers: &[Option<u16>], member: usize) -> bool {
    needed.get(member) == Some(&true) && number_of(numbers, member).is_none()
}

/// The number of a member as steps have it.
pub(crate) fn step_number(member: usize) -> u32 {
    u32::try_from(member).unwrap_or(u32::MAX)
}

/// A target with its new number.
pub(crate) fn renumbered_target(numbers: &[Option<u16>], target: u16) -> u16 {
    number_of(numbers, target.into()).unwrap_or(target)
}

/// A kind with its link renumbered: mono if the linked sample has no number.
pub(crate) fn renumbered_kind(numbers: &[Option<u16>], kind: Kind) -> Kind {
    match kind.link().and_then(|link| number_of(numbers, link.into())) {
        Some(link) => kind.with_link(link),
        None => Kind::Mono,
    }
}
