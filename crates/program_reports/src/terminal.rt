//! What the program writes on a terminal: the prompt of a live session, and the progress of long work.

use crate::sound_report::SoundReport;
use base_outputs::put_all;
use base_progress::{MixedFrames, OverriddenSetting, Progress, StartedNote, Work};
use program_hints::{Remarks, remark_on_live_line};
use std::alloc::Global;
use std::io;
use std::io::{Read, Write};
use std::time::{Clock, Duration, Instant};

/// Written before the first prompt.
const GREETING: &[u8] = b"A live session: help lists its lines, quit ends it.\n";

/// Written before each line is read.
const PROMPT: &[u8] = b"> ";

/// An input that writes a prompt before each read if it is a terminal, and a greeting before the first.
#[derive(Drop)]
pub struct Prompted<I: Read, O: Write> {
    input: I,
    output: O,
    is_terminal: bool,
    is_greeted: bool,
}

impl<I: Read, O: Write> Prompted<I, O> {
    /// An input, and the output for its prompts.
    pub fn new(input: I, output: O, is_terminal: bool) -> Prompted<I, O> {
        Prompted {
            input,
            output,
            is_terminal,
            is_greeted: false,
        }
    }

    fn ask(&mut self) {
        if !self.is_greeted {
            self.is_greeted = true;
            let _ = put_all(&mut self.output, GREETING);
        }
        let _ = put_all(&mut self.output, PROMPT);
    }
}

impl<I: Read, O: Write> Read for Prompted<I, O> {
    fn read(&mut self, buf: &mut [u8]) -> io::Result<usize> {
        if self.is_terminal {
            self.ask();
        }
        self.input.read(buf)
    }
}

/// Progress is shown for scripts with more lines.
const FEW_LINES: u64 = 10_000;

/// Progress is shown for rendering that takes longer, in seconds.
const SHORT_TIME: u64 = 2;

/// Returns to the first column, and clears the line.
const CLEARED: &str = "\r\x1b[K";

/// Shows the progress of long work on a terminal, in a line that is overwritten, and cleared at the end. On anything
/// else, and for short work, it writes no progress. Where details are wanted, it also writes what helps with a faulty
/// line of a live session, which settings of a script have no effect, and what was measured of the sound.
#[derive(Drop)]
pub struct ProgressMeter<'a, C: Clock, O: Write> {
    alloc: Global,
    clock: &'a C,
    output: O,
    is_terminal: bool,
    is_detailed: bool,
    sound: SoundReport,
    work: Work,
    // The size of the work and how much is done, in lines or frames.
    count: u64,
    done: u64,
    // When the work began, if the clock can be read.
    began: Option<Instant>,
    // The percentage shown last.
    reported: Option<u64>,
}

impl<'a, C: Clock, O: Write> ProgressMeter<'a, C, O> {
    /// A meter of no work yet, which writes to `output`.
    pub fn new(
        alloc: Global,
        clock: &'a C,
        output: O,
        is_terminal: bool,
    ) -> ProgressMeter<'a, C, O> {
        ProgressMeter {
            alloc,
            clock,
            output,
            is_terminal,
            is_detailed: is_terminal,
            sound: SoundReport::new(),
            work: Work::Lines,
            count: 0,
            done: 0,
            began: None,
            reported: None,
        }
    }

    // Whether the work is long enough to show.
    fn is_long(&self) -> bool {
        match self.work {
            Work::Lines => self.count > FEW_LINES,
            Work::Frames => self.has_lasted(),
        }
    }

    fn has_lasted(&self) -> bool {
        let Some(began) = self.began else {
            return false;
        };
        match began.elapsed(self.clock) {
            Ok(time) => time >= Duration::from_secs(SHORT_TIME),
            Err(_) => false,
        }
    }

    fn report(&mut self) {
        let hundredths = hundredths_of(self.done, self.count);
        if self.reported != Some(hundredths) && self.is_long() {
            self.reported = Some(hundredths);
            let _ = write!(self.output, "{CLEARED}{hundredths} %");
            let _ = self.output.flush();
        }
    }
}

// The percentage done, at most 100.
fn hundredths_of(done: u64, count: u64) -> u64 {
    match (100 * u128::from(done)).checked_div(u128::from(count)) {
        Some(hundredths) => hundredths.min(100) as u64,
        None => 100,
    }
}

impl<'a, C: Clock, O: Write> Progress for ProgressMeter<'a, C, O> {
    fn begin(&mut self, work: Work, count: u64) {
        self.work = work;
        self.count = count;
        self.done = 0;
        self.began = Instant::now(self.clock).ok();
        self.reported = None;
    }

    fn advance(&mut self, count: u64) {
        self.done = self.done.saturating_add(count);
        if self.is_terminal {
            self.report();
        }
    }

    fn end(&mut self) {
        if self.reported.is_some() {
            self.reported = None;
            let _ = put_all(&mut self.output, CLEARED.as_bytes());
        }
    }

    fn set_detailed(&mut self, is_detailed: bool) {
        self.is_detailed = is_detailed;
    }

    fn is_detailed(&self) -> bool {
        self.is_detailed
    }

    fn started(&mut self, note: StartedNote) {
        self.sound.add_note(note);
    }

    fn mixed(&mut self, frames: MixedFrames) {
        self.sound.add_frames(frames);
    }

    fn found_fault(&mut self, line: &[u8]) {
        let mut remarks = Remarks::new(true);
        remark_on_live_line(self.alloc, line, &mut remarks);
        let _ = put_all(&mut self.output, remarks.text());
    }

    fn found_overridden(&mut self, setting: OverriddenSetting) {
        let OverriddenSetting { line, more } = setting;
        let _ = write!(
            self.output,
            "line {line}: no effect, since each zone sets this generator itself: clear it there first\n"
        );
        if more > 0 {
            let _ = write!(self.output, "lines without effect after it: {more}\n");
        }
    }

    fn report_sound(&mut self) {
        if self.is_detailed {
            let _ = self.sound.write_to(&mut self.output);
        }
    }
}
