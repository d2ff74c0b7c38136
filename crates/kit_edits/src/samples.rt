//! The edits that append a kit's recordings.
ghost use Rattle.std.specs.Prelude.{◌≡◌, ◌≤◌, IfOk};
ghost use Rattle.std.specs.List.{AllZip};
ghost use Rattle.sf_base.specs.declared.limits.TheConstants.{SAMPLES};
ghost use Rattle.wave_file.specs.Imports.{sides_of};
ghost use Rattle.kit_edits.specs.declared.kit.KitRecording.{KitRecording};
ghost use Rattle.kit_edits.specs.Numbers.{has_sides};
ghost use Rattle.kit_edits.specs.Appending.{AreSplit, IsAppended, IsStarted, AreSamples};

use crate::kit::KitRecording;
use crate::names::free_name;
use crate::numbers::Numbered;
use crate::used_names::UsedNames;
use edit_forms::Edit;
use sf_base::OutOfMemory;
use sf_base::limits::SAMPLES;
use std::alloc::Global;
use wave_file::{Channels, Sides, import_edits};

/// The recordings so far: their edits, the numbers of their samples, and what the next ones need.
#[derive(Drop)]
pub(crate) struct KitSamples<'a> {
    pub(crate) edits: Vec<Edit<'a>>,
    pub(crate) numbered: Vec<Numbered>,
    // How many samples the bank has after the edits.
    pub(crate) count: usize,
    pub(crate) used: UsedNames,
}

/// Appends the recordings to `samples` samples, up to the first for which a bank has no room. Returns whether it has
/// room for all.
pub(crate) fn append_all<'a>(
    alloc: Global,
    samples: usize,
    recordings: Vec<KitRecording<'a>>,
    sides: &'a [Sides],
) -> Result<(KitSamples<'a>, bool), OutOfMemory>
    requires count { samples ≤ SAMPLES }
    requires split { AreSplit recordings.items sides.now }
    ensures { IfOk result (λ made. AreSamples samples recordings.entry.items made.0 made.1) }
{
    let mut kit = KitSamples::new(alloc, samples);
    let mut remaining = sides;
    for recording in recordings {
        let Some((sides, others)) = remaining.split_first() else {
            unreachable!();
        };
        remaining = others;
        if !kit.append(alloc, recording, sides)? {
            return Ok((kit, false));
        }
    }
    Ok((kit, true))
}

impl<'a> KitSamples<'a> {
    // No recordings, for a bank with `samples` samples.
    fn new(alloc: Global, samples: usize) -> KitSamples<'a>
        ensures { IsStarted samples result }
    {
        KitSamples {
            edits: Vec::new(alloc),
            numbered: Vec::new(alloc),
            count: samples,
            used: UsedNames::new(alloc),
        }
    }

    // Appends a recording. Returns whether a bank has room for its samples; without it they get no numbers.
    fn append(
        &mut self,
        alloc: Global,
        recording: KitRecording<'a>,
        sides: &'a Sides,
    ) -> Result<bool, OutOfMemory>
        requires count { self.old.count ≤ SAMPLES }
        requires split { sides.now ≡ sides_of recording.recording.channels }
        ensures { IfOk result (IsAppended self.old self.new recording.entry) }
    {
        let KitRecording { stem, recording } = recording;
        let is_stereo = has_sides(&recording.channels);
        let is_looped = recording.sampler.looped.is_some();
        let name = free_name(&self.used, stem, is_stereo);
        self.used.add_all(name, is_stereo)?;
        let mut edits = import_edits(alloc, self.count, name.bytes(), recording, sides)?;
        self.edits.append(&mut edits)?;
        let count = self.count + if is_stereo { 2 } else { 1 };
        if count > SAMPLES {
            return Ok(false);
        }
        let numbered = Numbered {
            left: self.count as u16,
            right: (count - 1) as u16,
            is_stereo,
            is_looped,
        };
        self.numbered.push(numbered)?;
        self.count = count;
        Ok(true)
    }
}

fn has_sides(channels: &Channels<'_>) -> bool
    ensures { result ≡ has_sides channels.now }
{
    match channels {
        Channels::Mono(_) | Channels::MonoSamples(_) => false,
        Channels::Stereo(_, _) => true,
    }
}
