//! The playing voices, and which of them an exclusive class silences.
ghost use Rattle.std.specs.Prelude.{◌≡◌, ◌≤◌, ◌<◌, ◌++◌, All, false, filter, map, IfOk, OnOk, vec_len};
ghost use Rattle.std.specs.Bool.{OnTrue};
ghost use Rattle.std.specs.List.{list_any};
ghost use Rattle.std.specs.Option.{option_map_or};
ghost use Rattle.std.specs.Vec.{vec_capacity};
ghost use Rattle.zone_select.specs.Pairs.{voice_by, listed};
ghost use Rattle.mixer.specs.StartFrames as heard;
ghost use Rattle.mixer.specs.Events.{is_sounding, unsilenced};
ghost use Rattle.mixer.specs.Ahead.{rewound};
ghost use Rattle.mixer.specs.Pressed.{ends, pressed_voices, released_by, with_handle};
ghost use Rattle.mixer.specs.KeptVoices.{AllSounding, AllYounger, lifetime};

use bank_core::Bank;
use script_notes::Note;
use sf_base::OutOfMemory;
use std::alloc::Global;
use voices::{Voice, VoiceFault};
use zone_select::matches;

// A voice, with the bank and preset number of its note, and the handle of a note that was pressed.
#[derive(Drop)]
pub(crate) struct PlayingVoice<'a> {
    pub(crate) voice: Voice<'a>,
    pub(crate) bank: u16,
    pub(crate) number: u16,
    pub(crate) handle: Option<u64>,
}

/// Which pressed notes a release ends.
#[derive(Clone, Copy, Debug, PartialEq, Eq)]
pub enum Release {
    /// Those with this handle.
    One(u64),
    /// All of them.
    All,
}

impl Release {
    /// Whether it ends the notes with a handle.
    pub fn ends(self, handle: u64) -> bool
        ensures { result ≡ ends self handle }
    {
        match self {
            Release::One(one) => one == handle,
            Release::All => true,
        }
    }

    // Whether it ends a note with this handle, or without one.
    fn ends_note(self, handle: Option<u64>) -> bool
        ensures { result ≡ option_map_or (ends self) handle false }
    {
        match handle {
            Some(handle) => self.ends(handle),
            None => false,
        }
    }
}

impl<'a> PlayingVoice<'a> {
    fn has_class(&self) -> bool
        ensures { result ≡ heard.has_class self.now }
    {
        self.voice.exclusive_class().is_some()
    }
}

// Whether the first voice silences the second when it starts.
#[tactic(auto, unfolding(crate::specs::StartFrames::excludes))]
fn excludes(new: &PlayingVoice, old: &PlayingVoice) -> bool
    ensures { result ≡ heard.excludes new.now old.now }
{
    let classes = (new.voice.exclusive_class(), old.voice.exclusive_class());
    let (Some(class), Some(other)) = classes else {
        return false;
    };
    class == other && new.bank == old.bank && new.number == old.number
}

// Whether one of the starting voices silences a playing one. A playing voice without a class needs no search.
#[tactic(auto, using(crate::proofs::Classes::none_silences), unfolding(crate::specs::StartFrames::silences))]
fn silences(new: &[PlayingVoice], old: &PlayingVoice) -> bool
    ensures { result ≡ heard.silences new.now old.now }
{
    if !old.has_class() {
        return false;
    }
    new.iter().any(|p| excludes(p, old))
}

// Whether one of the voices has an exclusive class.
pub(crate) fn have_class(voices: &[PlayingVoice]) -> bool
    ensures { result ≡ list_any heard.has_class voices.now }
{
    voices.iter().any(|p| p.has_class())
}

// Takes all voices back by a number of frames that they have played.
pub(crate) fn go_back(voices: &mut [PlayingVoice], frames: usize)
    requires given { All (λ p. frames ≤ p.voice.age) voices.old }
    ensures live { voices.new ≡ map (rewound frames) voices.old }
{
    for p in voices.iter_mut() {
        p.voice.go_back(frames as u64);
    }
}

// Gives each voice a handle.
fn set_handles(voices: &mut [PlayingVoice], handle: u64)
    ensures { voices.new ≡ map (with_handle handle) voices.old }
{
    for p in voices.iter_mut() {
        p.handle = Some(handle);
    }
}

// Ends the notes of a release.
#[tactic(auto, using(std::proofs::lemmas::List::Edits::map_over_more))]
pub(crate) fn release_voices(voices: &mut [PlayingVoice], release: Release)
    ensures { voices.new ≡ map (released_by release) voices.old }
{
    for p in voices.iter_mut() {
        release_voice(p, release);
    }
}

#[tactic(auto, unfolding(crate::specs::Pressed::released_by))]
fn release_voice(p: &mut PlayingVoice, release: Release)
    ensures { p.new ≡ released_by release p.old }
{
    if release.ends_note(p.handle) {
        p.voice.release();
    }
}

// Drops the voices that new ones silence. New voices without a class need no search.
pub(crate) fn drop_silenced<'a>(voices: &mut Vec<PlayingVoice<'a>>, new: &[PlayingVoice<'a>])
    ensures items { voices.new.items ≡ unsilenced new.now voices.old.items }
    ensures bound { vec_len voices.new ≤ vec_len voices.old }
    ensures capacity { vec_capacity voices.new ≡ vec_capacity voices.old }
{
    if !have_class(new) {
        return;
    }
    voices.retain(|p| !silences(new, p));
}

#[tactic(auto, unfolding(crate::specs::Events::is_sounding))]
fn is_sounding(p: &PlayingVoice) -> bool
    ensures value { result ≡ is_sounding p.now }
    ensures young { OnTrue result (p.now.voice.age < lifetime) }
{
    !p.voice.done()
}

// Drops the voices that are over.
pub(crate) fn drop_over<'a>(voices: &mut Vec<PlayingVoice<'a>>)
    ensures items { voices.new.items ≡ filter is_sounding voices.old.items }
    ensures young { AllYounger lifetime voices.new.items }
    ensures sounding { AllSounding voices.new.items }
    ensures bound { vec_len voices.new ≤ vec_len voices.old }
    ensures capacity { vec_capacity voices.new ≡ vec_capacity voices.old }
{
    voices.retain(|p| is_sounding(p));
}

// The voices of a note, each at its first frame.
pub(crate) fn note_voices<'a>(
    alloc: Global,
    bank: &Bank<'a>,
    note: &Note,
) -> Result<Vec<PlayingVoice<'a>>, OutOfMemory>
    ensures { IfOk result (λ voices. voices.items ≡ heard.note_voices bank.now note.now) }
{
    let mut voices = Vec::new(alloc);
    for pair in matches(bank, note) {
        add_voice(alloc, bank, note, pair, &mut voices)?;
    }
    Ok(voices)
}

// The voices of a note that is pressed, each at its first frame.
pub(crate) fn pressed_voices<'a>(
    alloc: Global,
    bank: &Bank<'a>,
    note: &Note,
    handle: u64,
) -> Result<Vec<PlayingVoice<'a>>, OutOfMemory>
    ensures { IfOk result (λ voices. voices.items ≡ pressed_voices bank.now handle note.now) }
{
    let mut voices = note_voices(alloc, bank, note)?;
    set_handles(voices.as_mut_slice(), handle);
    Ok(voices)
}

// Adds the voice of a pair of zones, if the note selects the pair.
fn add_voice<'a>(
    alloc: Global,
    bank: &Bank<'a>,
    note: &Note,
    pair: (u32, u32),
    voices: &mut Vec<PlayingVoice<'a>>,
) -> Result<(), OutOfMemory>
    ensures { OnOk result (voices.new.items
        ≡ voices.old.items ++ map (heard.playing note.now) (listed (voice_by bank.now note.now pair))) }
{
    match Voice::start(alloc, bank, note, pair) {
        Ok(voice) => {
            voices.push(PlayingVoice {
                voice,
                bank: note.bank(),
                number: note.number(),
                handle: None,
            })?;
            Ok(())
        }
        Err(VoiceFault::NoMatch) => Ok(()),
        Err(VoiceFault::OutOfMemory) => Err(OutOfMemory),
    }
}
