//! The operators that a level allows, those whose amounts are ranges, and the defaults of the played ones.
ghost use Rattle.std.specs.Prelude.{◌≡◌};
ghost use Rattle.generators.specs.Levels.{is_allowed};
ghost use Rattle.generators.specs.Ranges.{is_range_operator};
ghost use Rattle.generators.specs.Defaults.{default_of};

use crate::level::Level;
use crate::operators::*;

/// Whether zones of the level, including global zones, may set this operator. The target operators are not allowed at
/// either level.
#[tactic(auto, unfolding(crate::specs::Levels::is_allowed))]
pub fn allowed(operator: u16, level: Level) -> bool
    ensures { result ≡ is_allowed level operator }
{
    match operator {
        MOD_LFO_TO_PITCH..=MOD_ENV_TO_FILTER_FC
        | MOD_LFO_TO_VOLUME
        | CHORUS_EFFECTS_SEND..=PAN
        | DELAY_MOD_LFO..=KEYNUM_TO_VOL_ENV_DECAY
        | KEY_RANGE
        | VEL_RANGE
        | INITIAL_ATTENUATION
        | COARSE_TUNE
        | FINE_TUNE
        | SCALE_TUNING => true,
        START_ADDRS_OFFSET..=START_ADDRS_COARSE_OFFSET
        | END_ADDRS_COARSE_OFFSET
        | STARTLOOP_ADDRS_COARSE_OFFSET
        | KEYNUM
        | VELOCITY
        | ENDLOOP_ADDRS_COARSE_OFFSET
        | SAMPLE_MODES
        | EXCLUSIVE_CLASS
        | OVERRIDING_ROOT_KEY => matches!(level, Level::Inst),
        _ => false,
    }
}

/// Whether the operator's amount is a range of keys or of velocities.
pub fn is_range_operator(operator: u16) -> bool
    ensures { result ≡ is_range_operator operator }
{
    matches!(operator, KEY_RANGE | VEL_RANGE)
}

/// The default amount of a played operator, signed and in the operator's unit. `None` for an operator that is not
/// played.
#[tactic(auto, unfolding(crate::specs::Defaults::default_of))]
pub fn default_of(operator: u16) -> Option<i16>
    ensures { result ≡ default_of operator }
{
    match operator {
        START_ADDRS_OFFSET..=START_ADDRS_COARSE_OFFSET
        | END_ADDRS_COARSE_OFFSET
        | STARTLOOP_ADDRS_COARSE_OFFSET
        | ENDLOOP_ADDRS_COARSE_OFFSET
        | PAN
        | SUSTAIN_VOL_ENV
        | INITIAL_ATTENUATION
        | COARSE_TUNE
        | FINE_TUNE
        | SAMPLE_MODES
        | EXCLUSIVE_CLASS => Some(0),
        DELAY_VOL_ENV..=DECAY_VOL_ENV | RELEASE_VOL_ENV => Some(-12_000),
        KEYNUM | VELOCITY | OVERRIDING_ROOT_KEY => Some(-1),
        SCALE_TUNING => Some(100),
        _ => None,
    }
}
