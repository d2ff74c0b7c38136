//! The lines of presets, instruments and samples.
ghost use Rattle.std.specs.Prelude.{◌≡◌, ℕ, List};
ghost use Rattle.base_outputs.specs.Output.{Puts};
ghost use Rattle.show_listing.specs.Listing.{preset_line, instrument_line, sample_line};

use crate::pieces::{name_piece, number_piece};
use bank_core::{Head, Sample};
use bank_parts::OwnerHead;
use base_outputs::Output;
use script_grammar::put_sample_head;
use script_tokens::{put_line, put_pieces};
use sf_base::Name20;
use std::io::Write;

/// What a preset or an instrument has besides its zones, and its line.
pub(crate) trait ListedHead: OwnerHead {
    ghost use Rattle.std.specs.Prelude.{ℕ, List};

    /// Its word in scripts.
    ghost word: { List ℕ };

    /// Its line, from its number and the number of its zones.
    ghost line: { ℕ → Self → ℕ → List ℕ };

    /// Its word in scripts.
    fn word() -> &'static [u8]
        ensures { result.now ≡ word };

    /// Writes its line.
    fn put<W: Write>(&self, number: u64, zones: u64, output: &mut Output<'_, W>)
        ensures { Puts W.contents output.old output.new (line number self.now zones) };
}

impl ListedHead for Head {
    ghost use Rattle.std.specs.Prelude.{codes};

    ghost word = { codes "preset" };

    ghost line = { preset_line };

    fn word() -> &'static [u8] {
        b"preset"
    }

    #[tactic(auto, unfolding(crate::specs::Listing::preset_line))]
    fn put<W: Write>(&self, number: u64, zones: u64, output: &mut Output<'_, W>) {
        let pieces = [
            number_piece(number),
            name_piece(&self.name),
            number_piece(u64::from(self.number)),
            number_piece(u64::from(self.bank)),
            number_piece(zones),
        ];
        put_line(b"preset", &pieces, output);
    }
}

impl ListedHead for Name20 {
    ghost use Rattle.std.specs.Prelude.{codes};

    ghost word = { codes "inst" };

    ghost line = { instrument_line };

    fn word() -> &'static [u8] {
        b"inst"
    }

    #[tactic(auto, unfolding(crate::specs::Listing::instrument_line))]
    fn put<W: Write>(&self, number: u64, zones: u64, output: &mut Output<'_, W>) {
        let pieces = [number_piece(number), name_piece(self), number_piece(zones)];
        put_line(b"inst", &pieces, output);
    }
}

// Writes the line of a sample.
pub(crate) fn put_sample<W: Write>(number: u64, sample: &Sample<'_>, output: &mut Output<'_, W>)
    ensures { Puts W.contents output.old output.new (sample_line number sample.now) }
{
    output.put(b"sample");
    put_pieces(&[number_piece(number)], output);
    put_sample_head(sample, output);
    put_pieces(&[number_piece(sample.points.len() as u64)], output);
    output.put(b"\n");
}
