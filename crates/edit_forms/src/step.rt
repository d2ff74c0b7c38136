//! Steps that change a bank, grouped by what they edit.
ghost use Rattle.std.specs.Prelude.{◌≡◌, IfOk};
ghost use Rattle.edit_forms.specs.Fits.{FitsOwnerNumber, FitsPlace, FitsStep};
ghost use Rattle.edit_forms.specs.Steps.{is_neutral_step};

use crate::instruments::InstrumentStep;
use crate::points::PointStep;
use crate::presets::PresetStep;
use crate::samples::SampleStep;
use crate::settings::SettingStep;
use crate::texts::TextStep;
use crate::zones::ZoneStep;
use bank_changes::{Owner, Place};
use sf_base::OutOfMemory;
use std::alloc::Global;

/// A step that changes a bank. Each form of the edit script is a variant in one of these groups. Numbers count from
/// 0. A step borrows its points and texts.
#[derive(Drop)]
pub enum Step<'a> {
    Preset(PresetStep),
    Instrument(InstrumentStep),
    Sample(SampleStep<'a>),
    /// Edits the sample with this number.
    Points(u32, PointStep<'a>),
    Zone(Owner, ZoneStep),
    Setting(Owner, Place, SettingStep),
    Text(TextStep<'a>),
}

impl<'a> Step<'a> {
    /// Proves that each number, name and text is in the range of its field. It does nothing at run time.
    pub fn fits(&self)
        ensures { FitsStep self.now }
    {
        match self {
            Step::Preset(step) => step.fits(),
            Step::Instrument(step) => step.fits(),
            Step::Sample(step) => step.fits(),
            Step::Points(sample, step) => {
                let _sample = *sample;
                step.fits();
            }
            Step::Zone(owner, step) => {
                owner_fits(*owner);
                step.fits();
            }
            Step::Setting(owner, place, step) => {
                owner_fits(*owner);
                place_fits(*place);
                step.fits();
            }
            Step::Text(step) => step.fits(),
        }
    }

    /// Whether the step is of a form that changes no sound, for any bank and any values: adding, removing or moving
    /// an instrument or a sample, moving, splitting or joining zones, renaming an instrument or a sample, or setting
    /// a kind or a text.
    pub fn is_neutral(&self) -> bool
        ensures { result ≡ is_neutral_step self.now }
    {
        match self {
            Step::Preset(_) | Step::Setting(..) => false,
            Step::Instrument(_) | Step::Sample(_) | Step::Text(_) => true,
            Step::Points(_, step) => step.is_neutral(),
            Step::Zone(_, step) => step.is_neutral(),
        }
    }

    /// Copies the step, or returns `OutOfMemory`. The copy borrows the same points and texts.
    pub fn copy(&self, alloc: Global) -> Result<Step<'a>, OutOfMemory>
        ensures { IfOk result (λ copy. copy ≡ self.now) }
    {
        Ok(match self {
            Step::Preset(step) => Step::Preset(step.copy(alloc)?),
            Step::Instrument(step) => Step::Instrument(step.copy(alloc)?),
            Step::Sample(step) => Step::Sample(step.copy(alloc)?),
            Step::Points(sample, step) => Step::Points(*sample, step.copy(alloc)?),
            Step::Zone(owner, step) => Step::Zone(*owner, step.copy(alloc)?),
            Step::Setting(owner, place, step) => Step::Setting(*owner, *place, *step),
            Step::Text(step) => Step::Text(step.copy()),
        })
    }
}

// ---- what steps refer to

fn owner_fits(owner: Owner)
    ensures { FitsOwnerNumber owner }
{
    match owner {
        Owner::Preset(_number) | Owner::Inst(_number) => {}
    }
}

fn place_fits(place: Place)
    ensures { FitsPlace place }
{
    match place {
        Place::Global => {}
        Place::Zone(_number) => {}
    }
}
