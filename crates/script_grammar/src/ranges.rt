//! The words for a zone's axis, and for whether it keeps its own range.
ghost use Rattle.std.specs.Prelude.{◌≡◌};
ghost use Rattle.script_grammar.specs.Ranges.{axis_word, axes, keep_word, keeps};

use crate::names::HasWord;
use bank_zone_ranges::{Axis, Keep};

static AXES: [Axis; 2] = [Axis::Key, Axis::Vel];

impl HasWord for Axis {
    ghost all = { axes };

    ghost word_of = { axis_word };

    fn all() -> &'static [Axis] {
        &AXES
    }

    fn word(self) -> &'static [u8] {
        match self {
            Axis::Key => b"key",
            Axis::Vel => b"vel",
        }
    }
}

static KEEPS: [Keep; 2] = [Keep::Keep, Keep::Bare];

impl HasWord for Keep {
    ghost all = { keeps };

    ghost word_of = { keep_word };

    fn all() -> &'static [Keep] {
        &KEEPS
    }

    fn word(self) -> &'static [u8] {
        match self {
            Keep::Keep => b"keep",
            Keep::Bare => b"bare",
        }
    }
}
