//! What is measured of the frames that a session writes.
ghost use Rattle.std.specs.Prelude.{◌≡◌, ◌+◌, ◌%◌, ◌<◌, length, pos, slice_index_or};
ghost use Rattle.live_sessions.specs.Meters.{is_full, silent, with_frame, metered};

/// The peak and the clipped frames since the last `meter`.
#[derive(Debug, Clone, Copy)]
pub(crate) struct Meter {
    // The highest absolute value of a sample, from 0 to 32,768.
    pub(crate) peak: u16,
    // The frames with a sample at a limit of 16 bits.
    pub(crate) clipped: u64,
}

impl Meter {
    /// The measures of no frames.
    pub(crate) fn silent() -> Meter
        ensures { result ≡ silent }
    {
        Meter {
            peak: 0,
            clipped: 0,
        }
    }

    /// Measures frames, left and right samples in turn.
    pub(crate) fn add(&mut self, samples: &[i16])
        requires { length samples.now % 2 ≡ 0 }
        ensures { self.new ≡ metered self.old samples.now }
    {
        let mut at = 0;
        while at < samples.len() {
            self.add_frame(samples, at);
            at += 2;
        }
    }

    // Measures the frame whose samples begin at an index.
    fn add_frame(&mut self, samples: &[i16], at: usize)
        requires { at + 1 < length samples.now }
        ensures { self.new ≡ with_frame self.old (slice_index_or samples.now at (pos 0)) (slice_index_or samples.now (at + 1) (pos 0)) }
    {
        let left = samples[at];
        let right = samples[at + 1];
        let peak = left.unsigned_abs().max(right.unsigned_abs());
        self.peak = self.peak.max(peak);
        if is_full(left) || is_full(right) {
            self.clipped = self.clipped.saturating_add(1);
        }
    }
}

// Whether a sample is at a limit of 16 bits.
fn is_full(sample: i16) -> bool
    ensures { result ≡ is_full sample }
{
    sample == i16::MIN || sample == i16::MAX
}
