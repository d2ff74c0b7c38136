//! Panning: the share of each side of a frame. These functions are always inlined, so that a loop over a run has no
//! calls and is vectorized.
ghost use Rattle.std.specs.Prelude.{◌≡◌, ℕ, ◌*◌, ◌/◌, ◌%◌, ◌≤◌, ◌≤ℤ◌, pos, negsuc};
ghost use Rattle.voices.specs.Panning.{fine_of, side};

// The share of a side that gets each frame whole, in 1000ths.
pub(crate) const WHOLE: u32 = 1000;

// `part` 1000ths of `z`, rounded down. Adding 32768 keeps the dividend from being negative.
#[inline(always)]
#[tactic(auto, using(crate::proofs::PanningLaws::share_is), unfolding(crate::specs::Panning::side))]
fn share_of(z: i32, part: u32) -> i32
    requires low { negsuc 32767 ≤ℤ z }
    requires high { z ≤ℤ pos 32767 }
    requires level { part ≤ 1000 }
    ensures { result ≡ side z part }
{
    ((z * part as i32 + 32_768_000) as u32 / WHOLE) as i32 - 32768
}

// A share in 2^28ths, rounded up: the upper 16 bits, and the lower 14. Each half times a frame is a product of 16-bit
// numbers, which vectorizes well.
#[derive(Clone, Copy)]
pub(crate) struct FinePart {
    pub(crate) high: i16,
    pub(crate) low: i16,
}

// The share of `part` 1000ths in 2^28ths.
pub(crate) fn fine_part(part: u32) -> FinePart
    requires { part ≤ 1000 }
    ensures high { result.high ≡ pos (fine_of part / 16384) }
    ensures low { result.low ≡ pos (fine_of part % 16384) }
{
    let fine = (u64::from(part) * 268_435_456 + 999) / 1000;
    FinePart {
        high: (fine / 16384) as i16,
        low: (fine % 16384) as i16,
    }
}

// A side's share of a frame, given in 2^28ths.
#[inline(always)]
pub(crate) fn finely_panned(z: i16, fine: FinePart) -> i32
    requires high { (pos 0 ≤ℤ fine.high) × (fine.high ≤ℤ pos 16384) }
    requires low { (pos 0 ≤ℤ fine.low) × (fine.low ≤ℤ pos 16383) }
    ensures { (part : ℕ) → part ≤ 1000 → fine.high ≡ pos (fine_of part / 16384) → fine.low ≡ pos (fine_of part % 16384) → result ≡ side z part }
{
    let frame = i32::from(z);
    let rest = (frame * i32::from(fine.low) + 32768) >> 14;
    (frame * i32::from(fine.high) + rest) >> 14
}

// A side's share of a frame, `part` 1000ths.
#[inline(always)]
#[tactic(auto, using(crate::proofs::PanningLaws::side_within))]
pub(crate) fn panned(z: i32, part: u32) -> i32
    requires low { negsuc 32767 ≤ℤ z }
    requires high { z ≤ℤ pos 32767 }
    requires level { part ≤ 1000 }
    ensures value { result ≡ side z part }
    ensures low { negsuc 32767 ≤ℤ result }
    ensures high { result ≤ℤ pos 32767 }
{
    share_of(z, part)
}

// The share of each side of a centred voice, in 1000ths.
pub(crate) const HALF: u32 = 500;

// Each side's share of a frame of a centred voice.
#[inline(always)]
#[tactic(auto, using(crate::proofs::PanningLaws::side_within, crate::proofs::PanningLaws::half_side))]
pub(crate) fn halved(z: i32) -> i32
    requires low { negsuc 32767 ≤ℤ z }
    requires high { z ≤ℤ pos 32767 }
    ensures value { result ≡ side z 500 }
    ensures low { negsuc 32767 ≤ℤ result }
    ensures high { result ≤ℤ pos 32767 }
{
    z >> 1
}
