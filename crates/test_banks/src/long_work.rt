//! Tests of `ProgressMeter`: progress shown on a terminal during long work.

use sfbank::{Progress, ProgressMeter, Work};
use std::cell::Cell;
use std::io;
use std::time::{Clock, Duration};

/// A clock that advances by `step` seconds each time it is read.
#[derive(Drop)]
struct TickingClock {
    step: u64,
    seconds: Cell<u64>,
}

impl TickingClock {
    fn by(step: u64) -> TickingClock {
        TickingClock {
            step,
            seconds: Cell::new(0),
        }
    }
}

impl Clock for TickingClock {
    fn monotonic(&self) -> io::Result<Duration> {
        self.seconds
            .set(self.seconds.get().saturating_add(self.step));
        Ok(Duration::from_secs(self.seconds.get()))
    }

    fn since_1970(&self) -> io::Result<Duration> {
        self.monotonic()
    }
}

/// Whether work done in two halves writes `reported` to the terminal.
fn reports_progress(
    rt: &HostRuntime,
    is_terminal: bool,
    step: u64,
    work: Work,
    half: u64,
    reported: &[u8],
) -> bool {
    let clock = TickingClock::by(step);
    let mut output = Vec::new(rt.alloc());
    let mut meter = ProgressMeter::new(rt.alloc(), &clock, &mut output, is_terminal);
    meter.begin(work, half.saturating_mul(2));
    meter.advance(half);
    meter.advance(half);
    meter.end();
    drop(meter);
    output.as_slice() == reported
}

#[test]
fn long_work_is_reported(rt: HostRuntime) {
    let reported = b"\r\x1b[K50 %\r\x1b[K100 %\r\x1b[K";
    assert!(rt; reports_progress(&rt, true, 0, Work::Lines, 5001, reported));
    assert!(rt; reports_progress(&rt, true, 2, Work::Frames, 1, reported));
}

#[test]
fn short_work_is_not_reported(rt: HostRuntime) {
    assert!(rt; reports_progress(&rt, true, 9, Work::Lines, 5000, b""));
    assert!(rt; reports_progress(&rt, true, 0, Work::Frames, 50_000_000, b""));
    assert!(rt; reports_progress(&rt, false, 9, Work::Lines, 5001, b""));
    assert!(rt; reports_progress(&rt, false, 9, Work::Frames, 1, b""));
}
