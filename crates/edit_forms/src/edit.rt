//! An edit: one step, or a group of steps.
ghost use Rattle.std.specs.Prelude.{◌≡◌, MatchResult};
ghost use Rattle.std.specs.List.{AllByRecursion};
ghost use Rattle.edit_forms.specs.declared.edit.Edit.TheVariants.{One, Group};
ghost use Rattle.edit_forms.specs.Fits.{FitsStep, FitsEdit};

use crate::step::Step;
use base_numbered_lists::NumberedList;

/// An edit of a bank.
pub enum Edit<'a> {
    One(Step<'a>),
    /// `group { EDIT } { EDIT } ..`: the steps in order, either all of them or none.
    Group(NumberedList<Step<'a>>),
}

// Written by hand: a derived drop is inlined, and proved again, wherever a value is dropped.
impl Drop for Edit<'_> {
    fn drop(self) {
        match self {
            Edit::One(_) => {}
            Edit::Group(_) => {}
        }
    }
}

impl<'a> Edit<'a> {
    /// Returns the only step as `Ok`, or the steps of a group as `Err`.
    pub fn into_steps(self) -> Result<Step<'a>, NumberedList<Step<'a>>>
        ensures { MatchResult result (λ step. self.entry ≡ One step) (λ steps. self.entry ≡ Group steps) }
    {
        match self {
            Edit::One(step) => Ok(step),
            Edit::Group(steps) => Err(steps),
        }
    }

    /// Proves that each number, name and text is in the range of its field. It does nothing at run time.
    pub fn fits(&self)
        ensures { FitsEdit self.now }
    {
        match self {
            Edit::One(step) => step.fits(),
            Edit::Group(steps) => steps_fit(steps.as_slice()),
        }
    }
}

fn steps_fit(steps: &[Step<'_>])
    ensures { AllByRecursion FitsStep steps.now }
{
    for step in steps {
        step.fits();
    }
}
