//! Theorems about the order of causes.
ghost use Rattle.edit_refusals.specs.Order.{LowestIsReported, NumbersNeverFall};

/// The possible causes of a step are tested in the order of their numbers.
pub fn numbers_never_fall()
    ensures { NumbersNeverFall }
{}

/// The cause that `refuse` returns applies to the step, and has the lowest number of all that apply; among limits it
/// is the first that would be broken. It returns none only if none applies.
pub fn lowest_is_reported()
    ensures { LowestIsReported }
{}
