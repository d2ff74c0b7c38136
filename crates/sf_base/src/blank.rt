//! Blank values, which fill unused slots of a list.
use std::alloc::Global;

/// A type with a blank value, which fills an unused slot.
pub trait Blank: Drop + Sized {
    /// Returns a blank value. Allocates nothing.
    fn blank(alloc: Global) -> Self;
}
