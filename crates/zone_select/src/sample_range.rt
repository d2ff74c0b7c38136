//! The points of its sample that a voice plays.
ghost use Rattle.std.specs.Prelude.{◌≡◌, ◌≤◌, ◌<◌, ◌^◌, ◌≤ℤ◌, ◌&&◌, ◌||◌, ◌==◌, pos, negsuc, false, cond, length, int_le, int_lt, Some, None};
ghost use Rattle.generators.specs.Ranges.{is_range_operator};
ghost use Rattle.sound_tables.specs.Floor.{clamped_at_zero};
ghost use Rattle.zone_select.specs.Amounts.{offset, clamped, start_of, end_of, mode_of, loop_of};
ghost use Rattle.zone_select.specs.ZoneSettings.{settings_of};

use crate::amounts::{PairAmounts, amount};
use bank_parts::Sample;
use generators::operators::{
    END_ADDRS_COARSE_OFFSET, END_ADDRS_OFFSET, ENDLOOP_ADDRS_COARSE_OFFSET, ENDLOOP_ADDRS_OFFSET,
    SAMPLE_MODES, START_ADDRS_COARSE_OFFSET, START_ADDRS_OFFSET, STARTLOOP_ADDRS_COARSE_OFFSET,
    STARTLOOP_ADDRS_OFFSET,
};

/// The points of one unit of a coarse offset.
const COARSE: i64 = 32_768;

/// The sample mode of a voice that loops to its end.
const LOOPED: u8 = 1;

/// The sample mode of a voice that loops until the note ends.
pub(crate) const UNTIL_RELEASE: u8 = 3;

// The first point that is played, and the one after the last.
#[derive(Debug, Clone, Copy, PartialEq, Eq)]
pub(crate) struct SampleRange {
    pub(crate) start: u32,
    pub(crate) end: u32,
}

// An offset in points: the fine one plus the coarse one.
fn offset(zones: &PairAmounts<'_>, fine: u16, coarse: u16) -> i64
    requires fine { is_range_operator fine ≡ false }
    requires coarse { is_range_operator coarse ≡ false }
    ensures value { result ≡ offset (settings_of zones.now.instrument) (settings_of zones.now.preset) fine coarse }
    ensures within { (negsuc 2147549183 ≤ℤ result) × (result ≤ℤ pos 2147549184) }
{
    i64::from(amount(zones, fine)) + COARSE * i64::from(amount(zones, coarse))
}

// A number, clamped to a range.
fn clamped(number: i64, low: u32, high: u32) -> u32
    ensures value { result ≡ clamped low high number }
    ensures most { result ≤ high }
{
    number.max(i64::from(low)).min(i64::from(high)) as u32
}

// The range of points that the zones play of a sample.
pub(crate) fn sample_range(zones: &PairAmounts<'_>, sample: &Sample<'_>) -> SampleRange
    requires { length sample.now.points < 2 ^ 32 }
    ensures start { result.start ≡ start_of (settings_of zones.now.instrument) (settings_of zones.now.preset) sample.now }
    ensures end { result.end ≡ end_of (settings_of zones.now.instrument) (settings_of zones.now.preset) sample.now }
{
    let count = sample.points.len() as u32;
    let from = offset(zones, START_ADDRS_OFFSET, START_ADDRS_COARSE_OFFSET);
    let to = offset(zones, END_ADDRS_OFFSET, END_ADDRS_COARSE_OFFSET);
    let start = clamped(from, 0, count);
    let end = clamped(i64::from(count) + to, start, count);
    SampleRange { start, end }
}

// The low two bits of the zones' sample mode.
#[tactic(auto, using(crate::proofs::LinearLaws::euclid_is_mod))]
pub(crate) fn mode(zones: &PairAmounts<'_>) -> u8
    ensures value { result ≡ mode_of (settings_of zones.now.instrument) (settings_of zones.now.preset) }
    ensures within { result < 4 }
{
    amount(zones, SAMPLE_MODES).rem_euclid(4) as u8
}

// Whether a sample mode has a loop.
fn mode_has_loop(mode: u8) -> bool
    ensures { result ≡ (mode == 1 || mode == 3) }
{
    matches!(mode, LOOPED | UNTIL_RELEASE)
}

// The loop's first point and the one after its last, if the sample mode has a loop, the sample has one, and it lies
// within the points that are played.
pub(crate) fn loop_within(
    zones: &PairAmounts<'_>,
    sample: &Sample<'_>,
    played: &SampleRange,
    mode: u8,
) -> Option<(u32, u32)>
    requires start { played.now.start ≡ start_of (settings_of zones.now.instrument) (settings_of zones.now.preset) sample.now }
    requires end { played.now.end ≡ end_of (settings_of zones.now.instrument) (settings_of zones.now.preset) sample.now }
    requires mode { mode ≡ mode_of (settings_of zones.now.instrument) (settings_of zones.now.preset) }
    ensures { result ≡ loop_of (settings_of zones.now.instrument) (settings_of zones.now.preset) sample.now }
{
    let (first, after) = sample.looped?;
    if !mode_has_loop(mode) {
        return None;
    }
    let later = offset(zones, STARTLOOP_ADDRS_OFFSET, STARTLOOP_ADDRS_COARSE_OFFSET);
    let longer = offset(zones, ENDLOOP_ADDRS_OFFSET, ENDLOOP_ADDRS_COARSE_OFFSET);
    ends_within(i64::from(first) + later, i64::from(after) + longer, played)
}

// Both ends of a loop, if they are in order and lie within the points that are played.
fn ends_within(first: i64, after: i64, played: &SampleRange) -> Option<(u32, u32)>
    ensures { result ≡ cond (int_le (pos played.now.start) first && int_lt first after && int_le after (pos played.now.end)) (Some (clamped_at_zero first, clamped_at_zero after)) None }
{
    if i64::from(played.start) <= first && first < after && after <= i64::from(played.end) {
        Some((first as u32, after as u32))
    } else {
        None
    }
}
