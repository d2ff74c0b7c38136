//! Why a step is refused: the first cause that applies.
ghost use Rattle.bank_parts.specs.Sound.{IsSound};
ghost use Rattle.edit_forms.specs.Steps.{refusal};
ghost use Rattle.edit_refusals.specs.Answers.{IsRefuseResult};

use crate::instruments::refuse_instrument_step;
use crate::points::refuse_point_step;
use crate::presets::refuse_preset_step;
use crate::samples::refuse_sample_step;
use crate::settings::refuse_setting_step;
use crate::texts::refuse_text_step;
use crate::zones::refuse_zone_step;
use bank_core::Bank;
use edit_forms::{Cause, Step};

/// Checks whether a step is accepted, and returns the first cause that applies, in the order of their numbers, if it
/// is not. It allocates nothing.
pub fn refuse(bank: &Bank<'_>, step: &Step<'_>) -> Result<(), Cause>
    ensures refusal { IsRefuseResult (refusal bank.now step.now) result }
    ensures sound { IsSound bank.now }
{
    bank.soundness();
    match step {
        Step::Preset(step) => refuse_preset_step(bank, step),
        Step::Instrument(step) => refuse_instrument_step(bank, step),
        Step::Sample(step) => refuse_sample_step(bank, step),
        Step::Points(sample, step) => refuse_point_step(bank, *sample, step),
        Step::Zone(owner, step) => refuse_zone_step(bank, *owner, step),
        Step::Setting(owner, place, step) => refuse_setting_step(bank, *owner, *place, *step),
        Step::Text(step) => refuse_text_step(bank, step),
    }
}
