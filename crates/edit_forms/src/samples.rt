//! Steps that edit the list of samples.
ghost use Rattle.std.specs.Prelude.{◌≡◌, Some, IsSome, IfOk};
ghost use Rattle.edit_forms.specs.Samples.{Fits, added_sample, new_name};

use bank_parts::{Sample, TryClone};
use sf_base::{Name20, OutOfMemory};
use std::alloc::Global;

/// A step that edits the list of samples. Numbers count from 0. It borrows its points.
pub enum SampleStep<'a> {
    /// `rename-sample S NAME`: renames the sample.
    RenameSample { sample: u32, name: Name20 },
    /// `add-sample S BODY`: inserts the sample as number `at`. Its link is a number after the insertion.
    AddSample { at: u32, sample: Sample<'a> },
    /// `remove-sample S`: removes the sample. No zone may target it, and no other sample link to it.
    RemoveSample { sample: u32 },
    /// `move-sample I J`: moves sample `from` to number `to`.
    MoveSample { from: u32, to: u32 },
}

// Written by hand: a derived drop is inlined, and proved again, wherever a value is dropped.
impl Drop for SampleStep<'_> {
    fn drop(self) {
        match self {
            SampleStep::RenameSample { sample: _, name: _ } => {}
            SampleStep::AddSample { at: _, sample: _ } => {}
            SampleStep::RemoveSample { sample: _ } => {}
            SampleStep::MoveSample { from: _, to: _ } => {}
        }
    }
}

impl<'a> SampleStep<'a> {
    /// Returns the sample that the step adds.
    pub fn into_sample(self) -> Sample<'a>
        requires { IsSome (added_sample self) }
        ensures { added_sample self.entry ≡ Some result }
    {
        match self {
            SampleStep::AddSample { at: _, sample } => sample,
            _ => unreachable!(),
        }
    }

    /// Returns the name that the step sets.
    pub fn into_name(self) -> Name20
        requires { IsSome (new_name self) }
        ensures { new_name self.entry ≡ Some result }
    {
        match self {
            SampleStep::RenameSample { sample: _, name } => name,
            _ => unreachable!(),
        }
    }

    /// Proves that each number and name is in the range of its field. It does nothing at run time.
    pub fn fits(&self)
        ensures { Fits self.now }
    {
        match self {
            SampleStep::RenameSample { sample, name } => {
                let _sample = *sample;
                let _bytes = name.bytes();
            }
            SampleStep::AddSample { at, sample } => {
                let _at = *at;
                sample.fits();
            }
            SampleStep::RemoveSample { sample } => {
                let _sample = *sample;
            }
            SampleStep::MoveSample { from, to } => {
                let _from = *from;
                let _to = *to;
            }
        }
    }

    /// Copies the step, or returns `OutOfMemory`. The copy borrows the same points.
    pub fn copy(&self, alloc: Global) -> Result<SampleStep<'a>, OutOfMemory>
        ensures { IfOk result (λ copy. copy ≡ self.now) }
    {
        Ok(match *self {
            SampleStep::RenameSample { sample, name } => SampleStep::RenameSample { sample, name },
            SampleStep::AddSample { at, ref sample } => SampleStep::AddSample {
                at,
                sample: sample.try_clone(alloc)?,
            },
            SampleStep::RemoveSample { sample } => SampleStep::RemoveSample { sample },
            SampleStep::MoveSample { from, to } => SampleStep::MoveSample { from, to },
        })
    }
}
