//! The raw changes of one sample: of its points, loop, kind and tuning.
ghost use Rattle.std.specs.Prelude.{◌≡◌, ◌<◌, ◌≤◌, ◌+◌, ◌-◌, ◌^◌, length, take, drop, slice_get, IfSome, IfOk, OnOk, OnErr, IfErr};
ghost use Rattle.bank_parts.specs.Fits.{FitsLoop};
ghost use Rattle.bank_changes.specs.Points.{points_of, loop_of, trimmed, extended, sample_trimmed, sample_extended, loop_set, kind_set, tune_set};

use bank_parts::{Kind, Parts, Sample};
use sample_view::Points;
use sf_base::OutOfMemory;
use std::alloc::Global;

// ---- in a bank

/// Removes the first `front` and the last `back` points of a sample, and returns both parts. The loop moves with its
/// points; no point is copied. On `OutOfMemory` the bank is unchanged.
pub fn trim_sample<'a>(
    parts: &mut Parts<'a>,
    alloc: Global,
    number: u32,
    front: u32,
    back: u32,
) -> Result<(Points<'a>, Points<'a>), OutOfMemory>
    requires there { number < length parts.old.samples }
    requires points { front + back ≤ length (points_of parts.old number) }
    ensures front { IfOk result (λ cut. cut.0 ≡ take front (points_of parts.old number)) }
    ensures back { IfOk result (λ cut. cut.1 ≡ drop (length (points_of parts.old number) - back) (points_of parts.old number)) }
    ensures ok { OnOk result (parts.new ≡ sample_trimmed parts.old number front back) }
    ensures err { OnErr result (parts.new ≡ parts.old) }
{
    let sample = parts.samples.member_mut(number as usize);
    trim(sample, alloc, front, back)
}

/// Adds points before and after those of a sample. The loop moves with its points; no point is copied. If an
/// allocation fails, the bank is unchanged and the points are returned.
pub fn extend_sample<'a>(
    parts: &mut Parts<'a>,
    number: u32,
    front: Points<'a>,
    back: Points<'a>,
) -> Result<(), (Points<'a>, Points<'a>)>
    requires there { number < length parts.old.samples }
    requires points { length front + length (points_of parts.old number) + length back < 2 ^ 32 }
    requires looped { IfSome (slice_get parts.old.samples number) (λ sample. let longer = extended front back sample in FitsLoop longer.looped) }
    ensures ok { OnOk result (parts.new ≡ sample_extended parts.old number front.entry back.entry) }
    ensures err { OnErr result (parts.new ≡ parts.old) }
    ensures front_returned { IfErr result (λ given. given.0 ≡ front.entry) }
    ensures back_returned { IfErr result (λ given. given.1 ≡ back.entry) }
{
    let sample = parts.samples.member_mut(number as usize);
    extend(sample, front, back)
}

/// Replaces the loop of a sample and returns the old one. A loop is its first point and the point after its last,
/// counted from the start of the sample. Allocates nothing.
pub fn set_loop(
    parts: &mut Parts<'_>,
    number: u32,
    looped: Option<(u32, u32)>,
) -> Option<(u32, u32)>
    requires { number < length parts.old.samples }
    ensures value { IfSome (slice_get parts.old.samples number) (λ sample. result ≡ sample.looped) }
    ensures change { parts.new ≡ loop_set parts.old number looped }
{
    let sample = parts.samples.member_mut(number as usize);
    std::mem::replace(&mut sample.looped, looped)
}

/// Replaces the kind of a sample (SoundFont 2.04, section 7.10) and returns the old one. Allocates nothing.
pub fn set_kind(parts: &mut Parts<'_>, number: u32, kind: Kind) -> Kind
    requires { number < length parts.old.samples }
    ensures value { IfSome (slice_get parts.old.samples number) (λ sample. result ≡ sample.kind) }
    ensures change { parts.new ≡ kind_set parts.old number kind }
{
    let sample = parts.samples.member_mut(number as usize);
    std::mem::replace(&mut sample.kind, kind)
}

/// Replaces the rate (in frames per second), the original key (above 127 for none) and the pitch correction (in
/// cents) of a sample, and returns the old three. Allocates nothing.
pub fn set_tune(
    parts: &mut Parts<'_>,
    number: u32,
    rate: u32,
    key: u8,
    correction: i8,
) -> (u32, u8, i8)
    requires { number < length parts.old.samples }
    ensures rate { IfSome (slice_get parts.old.samples number) (λ sample. result.0 ≡ sample.rate) }
    ensures key { IfSome (slice_get parts.old.samples number) (λ sample. result.1 ≡ sample.key) }
    ensures correction { IfSome (slice_get parts.old.samples number) (λ sample. result.2 ≡ sample.correction) }
    ensures change { parts.new ≡ tune_set parts.old number rate key correction }
{
    let sample = parts.samples.member_mut(number as usize);
    let old = (sample.rate, sample.key, sample.correction);
    sample.rate = rate;
    sample.key = key;
    sample.correction = correction;
    old
}

// ---- in a sample

// A loop that begins before the remaining points begins at the first of them.
fn trim<'a>(
    sample: &mut Sample<'a>,
    alloc: Global,
    front: u32,
    back: u32,
) -> Result<(Points<'a>, Points<'a>), OutOfMemory>
    requires { front + back ≤ length sample.old.points }
    ensures front { IfOk result (λ cut. cut.0 ≡ take front sample.old.points) }
    ensures back { IfOk result (λ cut. cut.1 ≡ drop (length sample.old.points - back) sample.old.points) }
    ensures ok { OnOk result (sample.new ≡ trimmed front back sample.old) }
    ensures err { OnErr result (sample.new ≡ sample.old) }
{
    let cut = sample.points.narrow(alloc, front as usize, back as usize)?;
    if let Some((start, end)) = sample.looped {
        sample.looped = Some((start.saturating_sub(front), end.saturating_sub(front)));
    }
    Ok(cut)
}

fn extend<'a>(
    sample: &mut Sample<'a>,
    front: Points<'a>,
    back: Points<'a>,
) -> Result<(), (Points<'a>, Points<'a>)>
    requires points { length front + length sample.old.points + length back < 2 ^ 32 }
    requires looped { let longer = extended front back sample.old in FitsLoop longer.looped }
    ensures ok { OnOk result (sample.new ≡ extended front.entry back.entry sample.old) }
    ensures err { OnErr result (sample.new ≡ sample.old) }
    ensures front_returned { IfErr result (λ given. given.0 ≡ front.entry) }
    ensures back_returned { IfErr result (λ given. given.1 ≡ back.entry) }
{
    let more = front.len() as u32;
    sample.points.join(front, back)?;
    if let Some((start, end)) = sample.looped {
        sample.looped = Some((start + more, end + more));
    }
    Ok(())
}
