//! The outcome of a case.

/// The outcome of a case.
#[derive(Clone, Copy)]
pub(crate) enum Outcome {
    /// No allocation failed, and each value is right.
    Done,
    /// An allocation failed and nothing was changed; the same call made again succeeded.
    Refused,
    /// A value is wrong, or the call made again failed too.
    Wrong,
}

impl Outcome {
    /// The outcome without a failed allocation.
    pub(crate) fn done(right: bool) -> Outcome {
        if right { Outcome::Done } else { Outcome::Wrong }
    }

    /// The outcome after a failed allocation.
    pub(crate) fn refused(right: bool) -> Outcome {
        if right {
            Outcome::Refused
        } else {
            Outcome::Wrong
        }
    }

    /// The outcome of both cases together: the worse one.
    pub(crate) fn and(self, other: Outcome) -> Outcome {
        match (self, other) {
            (Outcome::Wrong, _) | (_, Outcome::Wrong) => Outcome::Wrong,
            (Outcome::Refused, _) | (_, Outcome::Refused) => Outcome::Refused,
            (Outcome::Done, Outcome::Done) => Outcome::Done,
        }
    }
}
