//! A list of numbered members.
ghost use Rattle.std.specs.Prelude.{◌≡◌, ◌↔◌, ◌++◌, ◌∷◌, [], IsTrue, length, IfErr, OnOk, OnErr};

use std::alloc::{AllocFailed, Global};
use std::marker::Model;

/// A list whose members are numbered from 0.
#[derive(Debug)]
pub struct NumberedList<T> {
    vec: Vec<T>,
}

// Not derived: a derived `drop` is inlined, and proved, wherever a value is dropped; this one is a call.
impl<T: Drop> Drop for NumberedList<T> {
    fn drop(self) {
        let NumberedList { vec: _ } = self;
    }
}

impl<T> Model for NumberedList<T> {
    ghost use Rattle.std.specs.Prelude.{List};

    ghost Value = { List T };

    ghost view = { λ list. list.vec.items };
}

impl<T> NumberedList<T> {
    /// Makes an empty list. Allocates nothing.
    pub fn new(alloc: Global) -> NumberedList<T>
        ensures { result ≡ [] }
    {
        NumberedList {
            vec: Vec::new(alloc),
        }
    }

    /// Makes a list of the elements of a `Vec`. Allocates nothing.
    pub fn from_vec(vec: Vec<T>) -> NumberedList<T>
        ensures { result ≡ vec.items }
    {
        NumberedList { vec }
    }

    /// Returns the members as a `Vec`. Allocates nothing.
    pub fn into_vec(self) -> Vec<T>
        ensures { result.items ≡ self }
    {
        let NumberedList { vec } = self;
        vec
    }

    /// The number of members.
    pub fn len(&self) -> usize
        ensures { result ≡ length self.now }
    {
        self.vec.len()
    }

    /// Whether the list has no members.
    pub fn is_empty(&self) -> bool
        ensures { IsTrue result ↔ (self.now ≡ []) }
    {
        self.vec.is_empty()
    }

    /// The members in order.
    pub fn as_slice(&self) -> &[T]
        ensures { result.now ≡ self.now }
    {
        self.vec.as_slice()
    }

    /// Appends `x`. A failed allocation changes nothing and returns `x`.
    pub fn push(&mut self, x: T) -> Result<(), T>
        ensures ok { OnOk result (self.new ≡ self.old ++ x ∷ []) }
        ensures err { OnErr result (self.new ≡ self.old) }
        ensures value_returned { IfErr result (λ y. y ≡ x) }
    {
        self.vec.push(x).map_err(|AllocFailed { value }| value)
    }
}
