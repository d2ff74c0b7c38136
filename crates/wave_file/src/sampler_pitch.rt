//! The pitch of a sample, as a unity note and a pitch fraction of a `smpl` chunk.
ghost use Rattle.std.specs.Prelude.{◌≡◌, ◌≤◌};
ghost use Rattle.wave_file.specs.SamplerPitch.{played_key, pitch, unity_note, pitch_fraction};

/// The cents of a semitone.
const SEMITONE: u32 = 100;

/// The highest pitch that is written, in cents above key 0.
const HIGHEST: u32 = 12_799;

/// The unity note of a sample of this key and correction in cents: the key, 0 to 127, at or below its pitch. A key
/// above 127 (unpitched) counts as 60.
pub fn unity_note(key: u8, correction: i8) -> u32
    ensures { result ≡ unity_note key correction }
{
    pitch(key, correction) / SEMITONE
}

/// The pitch above the unity note, in units of 1/2^32 semitone.
pub fn pitch_fraction(key: u8, correction: i8) -> u32
    ensures { result ≡ pitch_fraction key correction }
{
    let cents = pitch(key, correction) % SEMITONE;
    ((u64::from(cents) << 32) / u64::from(SEMITONE)) as u32
}

// The pitch in cents above key 0, clamped to 0 to `HIGHEST`.
fn pitch(key: u8, correction: i8) -> u32
    ensures { result ≡ pitch key correction }
{
    let cents = SEMITONE * u32::from(played_key(key));
    let away = u32::from(correction.unsigned_abs());
    if correction < 0 {
        HIGHEST.min(cents + away)
    } else {
        HIGHEST.min(cents.saturating_sub(away))
    }
}

// The key that a sample is played by: 60 if it is unpitched.
fn played_key(key: u8) -> u8
    ensures value { result ≡ played_key key }
    ensures bound { result ≤ 127 }
{
    if key <= 127 { key } else { 60 }
}
