//! Reports notes that were started, and what is measured of the sums of frames before they are clipped.
ghost use Rattle.std.specs.Prelude.{◌≡◌, ◌*◌, length};

use bank_core::Bank;
use base_progress::{MixedFrames, Progress, StartedNote};
use script_notes::Note;

// The loudest side of some frames, and how many of them are clipped.
#[derive(Clone, Copy)]
struct Loudness {
    loudest: u32,
    clipped: u32,
}

impl Loudness {
    fn none() -> Loudness {
        Loudness {
            loudest: 0,
            clipped: 0,
        }
    }

    // Adds a frame with these sides.
    fn add(&mut self, left: i64, right: i64) {
        let side = left.unsigned_abs().max(right.unsigned_abs());
        self.loudest = u32::try_from(side).unwrap_or(u32::MAX).max(self.loudest);
        if is_clipped(left) || is_clipped(right) {
            self.clipped = self.clipped.saturating_add(1);
        }
    }
}

fn is_clipped(side: i64) -> bool {
    side < -32768 || 32767 < side
}

// Measures frames with these sums of each side and of both sides.
fn loudness_of_sums(sides: &[i32], middle: &[i32]) -> Loudness
    requires { length sides.now ≡ 2 * length middle.now }
{
    let mut measured = Loudness::none();
    for i in 0..middle.len() {
        let both = i64::from(middle[i]);
        let left = i64::from(sides[2 * i]) + both;
        let right = i64::from(sides[2 * i + 1]) + both;
        measured.add(left, right);
    }
    measured
}

// Measures frames with these sides.
fn loudness_of_totals(totals: &[i128]) -> Loudness {
    let mut measured = Loudness::none();
    for i in 0..totals.len() / 2 {
        measured.add(saturated(totals[2 * i]), saturated(totals[2 * i + 1]));
    }
    measured
}

// A total, or the nearest value that fits.
fn saturated(total: i128) -> i64 {
    total.min(i64::MAX.into()).max(i64::MIN.into()) as i64
}

// Reports frames with these sums of each side and of both sides.
pub(crate) fn report_sums<P: Progress>(
    voices: usize,
    sides: &[i32],
    middle: &[i32],
    progress: &mut P,
)
    requires { length sides.now ≡ 2 * length middle.now }
{
    if progress.is_detailed() {
        report(voices, loudness_of_sums(sides, middle), progress);
    }
}

// Reports frames with these sides.
pub(crate) fn report_totals<P: Progress>(voices: usize, totals: &[i128], progress: &mut P) {
    if progress.is_detailed() {
        report(voices, loudness_of_totals(totals), progress);
    }
}

fn report<P: Progress>(voices: usize, measured: Loudness, progress: &mut P) {
    progress.mixed(MixedFrames {
        voices,
        loudest: measured.loudest,
        clipped: measured.clipped,
    });
}

// Reports a note that started a number of voices.
pub(crate) fn report_start<P: Progress>(
    bank: &Bank<'_>,
    note: &Note,
    voices: usize,
    progress: &mut P,
) {
    if progress.is_detailed() {
        progress.started(StartedNote {
            bank: note.bank(),
            number: note.number(),
            has_preset: voices != 0 || has_preset(bank, note),
            voices,
        });
    }
}

// Whether the bank has a preset with the note's bank and preset number.
fn has_preset(bank: &Bank<'_>, note: &Note) -> bool {
    let presets = bank.presets();
    for i in 0..presets.len() {
        let head = presets.head(i);
        if head.bank == note.bank() && head.number == note.number() {
            return true;
        }
    }
    false
}
