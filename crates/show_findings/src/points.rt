//! What the points of a sample show, in one pass over their bytes.
ghost use Rattle.std.specs.Prelude.{◌≡◌, ◌==◌, ◌%◌, map, length, IfOk};
ghost use Rattle.std.specs.List.{list_all, fold};
ghost use Rattle.bank_parts.specs.declared.parts.Sample.{Sample};
ghost use Rattle.sample_view.specs.Words.{words};
ghost use Rattle.show_findings.specs.Points.{is_silent, is_end};
ghost use Rattle.show_findings.specs.Scans.{scan_start, scan_more, clips_more, end_more, ended, facts_in, facts_of, facts_of_samples, mixed};

use bank_core::{Bank, Sample};
use sample_view::Points;
use sf_base::OutOfMemory;
use std::alloc::Global;

/// The bytes of a point.
const POINT_SIZE: usize = 2;

/// The fewest neighbouring points at an end of the scale that count as clipped.
const CLIPPED_RUN: u32 = 3;

/// The first hash of FNV-1a.
const BASIS: u64 = 0xcbf2_9ce4_8422_2325;

/// The words of 32,767 and -32,768, the ends of the scale.
const HIGHEST: u16 = 0x7fff;

const LOWEST: u16 = 0x8000;

/// What the points of a sample show.
#[derive(Clone, Copy)]
pub(crate) struct PointFacts {
    /// The number of points.
    pub count: usize,
    /// The sum of the points.
    pub sum: i64,
    /// The number of points in runs of at least three at the same end of the scale.
    pub clipped: u32,
    /// A hash of the points.
    pub hash: u64,
}

// The same of the points so far.
#[derive(Clone, Copy)]
pub(crate) struct PointScan {
    sum: i64,
    hash: u64,
    clips: Clips,
}

// The clipped points so far: those of the runs that have ended, and the run that the last points are in, which is empty
// unless they are at this end of the scale.
#[derive(Clone, Copy)]
pub(crate) struct Clips {
    clipped: u32,
    run: u32,
    end: u16,
}

impl PointFacts {
    /// What these points show.
    pub(crate) fn of(points: &Points<'_>) -> PointFacts
        ensures { result ≡ facts_of points.now }
    {
        let mut scan = PointScan::start();
        for piece in points.pieces() {
            scan.add_piece(*piece);
        }
        scan.facts(points.len())
    }
}

impl PointScan {
    fn start() -> PointScan
        ensures { result ≡ scan_start }
    {
        PointScan {
            sum: 0,
            hash: BASIS,
            clips: Clips {
                clipped: 0,
                run: 0,
                end: 0,
            },
        }
    }

    fn add_piece(&mut self, bytes: &[u8])
        requires { length bytes.now % 2 ≡ 0 }
        ensures { self.new ≡ fold scan_more self.old (words bytes.now) }
    {
        let mut sum = self.sum;
        let mut hash = self.hash;
        let mut clips = self.clips;
        for i in 0..bytes.len() / POINT_SIZE {
            let word = u16::from_le_bytes([bytes[POINT_SIZE * i], bytes[POINT_SIZE * i + 1]]);
            sum = sum.wrapping_add(i64::from(word.cast_signed()));
            hash = mixed(hash, u64::from(word));
            clips.add(word);
        }
        self.sum = sum;
        self.hash = hash;
        self.clips = clips;
    }

    // What these points show, where there are no more.
    fn facts(self, count: usize) -> PointFacts
        ensures { result ≡ facts_in self count }
    {
        let mut clips = self.clips;
        clips.end_run();
        PointFacts {
            count,
            sum: self.sum,
            clipped: clips.clipped,
            hash: self.hash,
        }
    }
}

impl Clips {
    fn add(&mut self, word: u16)
        ensures { self.new ≡ clips_more self.old word }
    {
        if word == HIGHEST || word == LOWEST {
            self.add_end(word);
        } else if self.run > 0 {
            self.end_run();
        }
    }

    #[inline(never)]
    fn add_end(&mut self, word: u16)
        ensures { self.new ≡ end_more self.old word }
    {
        if self.run > 0 && self.end != word {
            self.end_run();
        }
        self.end = word;
        self.run = self.run.saturating_add(1);
    }

    #[inline(never)]
    fn end_run(&mut self)
        ensures { self.new ≡ ended self.old }
    {
        if self.run >= CLIPPED_RUN {
            self.clipped = self.clipped.saturating_add(self.run);
        }
        self.run = 0;
    }
}

/// What the points of each sample show.
pub(crate) fn facts_of(alloc: Global, bank: &Bank<'_>) -> Result<Vec<PointFacts>, OutOfMemory>
    ensures { IfOk result (λ found. found.items ≡ facts_of_samples bank.now.samples) }
{
    facts_of_samples(alloc, bank.samples())
}

fn facts_of_samples(alloc: Global, samples: &[Sample<'_>]) -> Result<Vec<PointFacts>, OutOfMemory>
    ensures { IfOk result (λ found. found.items ≡ facts_of_samples samples.now) }
{
    let mut found = Vec::new(alloc);
    for sample in samples {
        found.push(PointFacts::of(&sample.points))?;
    }
    Ok(found)
}

/// Whether all points are zero, and there is at least one.
pub(crate) fn is_silent(points: &Points<'_>) -> bool
    ensures { result ≡ is_silent points.now }
{
    !points.is_empty() && are_zero(points.pieces())
}

fn are_zero(pieces: &[&[u8]]) -> bool
    ensures { result ≡ list_all (λ piece. list_all (λ b. b == 0) piece.now) pieces.now }
{
    pieces.iter().all(|piece| is_zero(*piece))
}

fn is_zero(bytes: &[u8]) -> bool
    ensures { result ≡ list_all (λ b. b == 0) bytes.now }
{
    bytes.iter().all(|byte| *byte == 0)
}

/// The hash FNV-1a of one more number.
pub(crate) fn mixed(hash: u64, number: u64) -> u64
    ensures { result ≡ mixed hash number }
{
    (hash ^ number).wrapping_mul(0x100_0000_01b3)
}
