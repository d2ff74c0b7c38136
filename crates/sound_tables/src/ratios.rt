//! Ratios of frequencies within an octave.
ghost use Rattle.std.specs.Prelude.{◌≡◌, ◌≤◌};
ghost use Rattle.sound_tables.specs.Tables.{ratio, pitch_of};

/// The ratios of the semitones of an octave, in 65536ths.
const SEMITONES: [u32; 13] = [
    65536, 69433, 73562, 77936, 82570, 87480, 92682, 98193, 104032, 110218, 116772, 123715, 131072,
];

/// The frequency ratio of an interval, in 65536ths: 65536 at 0 cents, 131072 from an octave (1200 cents) on. It is
/// interpolated linearly between two semitones and rounded down; a negative interval counts as zero.
pub fn pitch(cents: i64) -> u32
    ensures value { result ≡ pitch_of cents }
    ensures least { 65536 ≤ result }
    ensures most { result ≤ 131072 }
{
    ratio_at(cents.max(0).min(1200) as u32)
}

// The ratio of an interval of at most an octave.
#[tactic(auto, using(crate::proofs::RatioLaws::ratio_least, crate::proofs::RatioLaws::ratio_most), unfolding(crate::specs::Tables::ratio))]
pub(crate) fn ratio_at(cents: u32) -> u32
    requires { cents ≤ 1200 }
    ensures value { result ≡ ratio cents }
    ensures least { 65536 ≤ result }
    ensures most { result ≤ 131072 }
{
    if cents == 1200 {
        return 131072;
    }
    let below = (cents / 100) as usize;
    let low = SEMITONES[below];
    let high = SEMITONES[below + 1];
    low + (high - low) * (cents % 100) / 100
}
