//! The step that adds a copy.
ghost use Rattle.std.specs.Prelude.{◌≡◌, ◌<◌, length, slice_get, Some, IfOk};
ghost use Rattle.std.specs.Option.{option_map};
ghost use Rattle.bank_parts.specs.Owners.{with_head};
ghost use Rattle.bank_changes.specs.Members.{member_count};
ghost use Rattle.plan_presets.specs.declared.numbers.CopiedMember.TheVariants as variant;
ghost use Rattle.plan_copy.specs.Copying.{sample_copy};
ghost use Rattle.plan_copy.specs.CopySteps.{IsCopyStep};

use crate::numbers::{numbers_for, numbers_of};
use bank_core::{Bank, Head, Kind, List, Owners, Sample};
use bank_parts::{OwnerHead, TryClone, ZoneOwner};
use edit_forms::{InstrumentStep, PresetStep, SampleStep, Step};
use plan_edits::PlanFault;
use plan_presets::{CopiedMember, PresetNumbers};
use sf_base::{Name20, OutOfMemory};
use std::alloc::Global;

/// The step that adds a copy of a member at the end of its list.
pub(crate) fn copy_step<'a>(
    alloc: Global,
    bank: &Bank<'a>,
    member: CopiedMember,
    name: Option<Name20>,
) -> Result<Step<'a>, PlanFault>
    ensures { IfOk result (λ step. IsCopyStep bank.now member name step) }
{
    match member {
        CopiedMember::Preset(number, given) => preset_step(alloc, bank, number, given, name),
        CopiedMember::Inst(number) => instrument_step(alloc, bank, number, name),
        CopiedMember::Sample(number) => sample_step(alloc, bank, number, name),
    }
}

fn preset_step<'a>(
    alloc: Global,
    bank: &Bank<'_>,
    number: u32,
    given: Option<PresetNumbers>,
    name: Option<Name20>,
) -> Result<Step<'a>, PlanFault>
    ensures { IfOk result (λ step. IsCopyStep bank.now (variant.Preset number given) name step) }
{
    let Some(original) = bank.head(number) else {
        return Err(PlanFault::Defect);
    };
    let Ok(numbers) = numbers_for(bank, numbers_of(&original), given) else {
        return Err(PlanFault::Defect);
    };
    let head = Head {
        name: name.unwrap_or(original.name),
        number: numbers.number,
        bank: numbers.bank,
        ..original
    };
    let preset = copy_owner(alloc, bank.presets(), number as usize, head)?;
    let at = count(bank, List::Presets);
    Ok(Step::Preset(PresetStep::AddPreset { at, preset }))
}

fn instrument_step<'a>(
    alloc: Global,
    bank: &Bank<'_>,
    number: u32,
    name: Option<Name20>,
) -> Result<Step<'a>, PlanFault>
    ensures { IfOk result (λ step. IsCopyStep bank.now (variant.Inst number) name step) }
{
    let Some(original) = bank.inst_name(number) else {
        return Err(PlanFault::Defect);
    };
    let head = name.unwrap_or(original);
    let instrument = copy_owner(alloc, bank.instruments(), number as usize, head)?;
    let at = count(bank, List::Instruments);
    Ok(Step::Instrument(InstrumentStep::AddInstrument { at, instrument }))
}

fn sample_step<'a>(
    alloc: Global,
    bank: &Bank<'a>,
    number: u32,
    name: Option<Name20>,
) -> Result<Step<'a>, PlanFault>
    ensures { IfOk result (λ step. IsCopyStep bank.now (variant.Sample number) name step) }
{
    bank.soundness();
    let Some(original) = bank.sample(number) else {
        return Err(PlanFault::Defect);
    };
    let sample = copy_sample(alloc, original, name)?;
    let at = count(bank, List::Samples);
    Ok(Step::Sample(SampleStep::AddSample { at, sample }))
}

fn count(bank: &Bank<'_>, list: List) -> u32
    ensures { result ≡ member_count bank.now list }
{
    bank.soundness();
    bank.count(list) as u32
}

// A copy of owner `i` with another head.
fn copy_owner<H: OwnerHead>(
    alloc: Global,
    owners: &Owners<H>,
    i: usize,
    head: H,
) -> Result<ZoneOwner<H>, OutOfMemory>
    requires { i < length owners.now }
    ensures { IfOk result (λ owner. option_map (with_head head) (slice_get owners.now i) ≡ Some owner) }
{
    // An owner is in flat lists, so it can't be copied alone.
    let mut owner = owners.copy(alloc)?.remove(alloc, i)?;
    owner.head = head;
    Ok(owner)
}

fn copy_sample<'a>(
    alloc: Global,
    original: &Sample<'a>,
    name: Option<Name20>,
) -> Result<Sample<'a>, OutOfMemory>
    ensures { IfOk result (λ copy. copy ≡ sample_copy name original.now) }
{
    let mut copy = original.try_clone(alloc)?;
    copy.name = name.unwrap_or(original.name);
    copy.kind = Kind::Mono;
    Ok(copy)
}
