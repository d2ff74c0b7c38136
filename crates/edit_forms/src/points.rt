//! Steps that edit one sample's contents.
ghost use Rattle.std.specs.Prelude.{◌≡◌, Some, IsSome, IfOk};
ghost use Rattle.edit_forms.specs.Points.{Fits, is_neutral, added_points};

use bank_parts::{Kind, loop_fits};
use sample_view::Points;
use sf_base::OutOfMemory;
use std::alloc::Global;

/// A step that edits one sample: its points, loop, kind or pitch. It borrows its points.
pub enum PointStep<'a> {
    /// `trim S F B`: removes the first `front` and the last `back` points. The loop stays on the same points.
    Trim { front: u32, back: u32 },
    /// `extend S POINTS POINTS`: adds points before and after those of the sample. The loop stays on the same points.
    Extend { front: Points<'a>, back: Points<'a> },
    /// `set-loop S LOOP`: sets the loop (its first point and the point after its last, relative to the start of the
    /// sample), or removes it.
    SetLoop { looped: Option<(u32, u32)> },
    /// `set-kind S KIND`: sets the kind and its link.
    SetKind { kind: Kind },
    /// `set-tune S RATE KEY CORR`: sets the rate in frames per second, the root key (above 127 for none), and the
    /// correction in cents.
    SetTune { rate: u32, key: u8, correction: i8 },
}

// Written by hand: a derived drop is inlined, and proved again, wherever a value is dropped.
impl Drop for PointStep<'_> {
    fn drop(self) {
        match self {
            PointStep::Trim { front: _, back: _ } => {}
            PointStep::Extend { front: _, back: _ } => {}
            PointStep::SetLoop { looped: _ } => {}
            PointStep::SetKind { kind: _ } => {}
            PointStep::SetTune {
                rate: _,
                key: _,
                correction: _,
            } => {}
        }
    }
}

impl<'a> PointStep<'a> {
    /// Returns the points that the step adds before and after those of the sample.
    pub fn into_points(self) -> (Points<'a>, Points<'a>)
        requires { IsSome (added_points self) }
        ensures { added_points self.entry ≡ Some (result.0, result.1) }
    {
        match self {
            PointStep::Extend { front, back } => (front, back),
            _ => unreachable!(),
        }
    }

    /// Proves that each number is in the range of its field. It does nothing at run time.
    pub fn fits(&self)
        ensures { Fits self.now }
    {
        match self {
            PointStep::Trim { front, back } => {
                let _front = *front;
                let _back = *back;
            }
            PointStep::Extend { front, back } => {
                let _front = front.len();
                let _back = back.len();
            }
            PointStep::SetLoop { looped } => loop_fits(*looped),
            PointStep::SetKind { kind } => kind.fits(),
            PointStep::SetTune {
                rate,
                key,
                correction,
            } => {
                let _rate = *rate;
                let _key = *key;
                let _correction = *correction;
            }
        }
    }

    /// Whether the step is of a form that changes no sound, for any bank.
    pub fn is_neutral(&self) -> bool
        ensures { result ≡ is_neutral self.now }
    {
        matches!(self, PointStep::SetKind { .. })
    }

    /// Copies the step, or returns `OutOfMemory`. The copy borrows the same points.
    pub fn copy(&self, alloc: Global) -> Result<PointStep<'a>, OutOfMemory>
        ensures { IfOk result (λ copy. copy ≡ self.now) }
    {
        Ok(match *self {
            PointStep::Trim { front, back } => PointStep::Trim { front, back },
            PointStep::Extend {
                ref front,
                ref back,
            } => PointStep::Extend {
                front: front.copy(alloc)?,
                back: back.copy(alloc)?,
            },
            PointStep::SetLoop { looped } => PointStep::SetLoop { looped },
            PointStep::SetKind { kind } => PointStep::SetKind { kind },
            PointStep::SetTune {
                rate,
                key,
                correction,
            } => PointStep::SetTune {
                rate,
                key,
                correction,
            },
        })
    }
}
