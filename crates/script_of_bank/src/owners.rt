//! The lines that add presets or instruments.
ghost use Rattle.std.specs.Prelude.{◌≡◌, ◌<◌, length, slice_get, IfSome};
ghost use Rattle.std.specs.List.{flat_map};
ghost use Rattle.base_outputs.specs.Output.{Puts};
ghost use Rattle.script_tokens.specs.Printing.{spaced};
ghost use Rattle.script_grammar.specs.Operands.{pieces_of};
ghost use Rattle.script_of_bank.specs.Lines.{owner_line, owner_lines};

use crate::zones::put_zones_of;
use bank_core::{Head, Owners};
use bank_parts::OwnerHead;
use base_outputs::Output;
use script_grammar::put_name;
use script_tokens::{Piece, put_pieces};
use sf_base::{BorrowedBytes, Name20};
use std::io::Write;

/// The head of a preset or an instrument, on the line that adds the owner.
pub(crate) trait AddedHead: OwnerHead {
    ghost use Rattle.std.specs.Prelude.{List, ℕ};
    ghost use Rattle.script_grammar.specs.Operands.{Operand};

    /// The word of the form.
    ghost word: { List ℕ };

    /// The operands after the number.
    ghost operands: { Self → List Operand };

    /// The word of the form.
    fn word() -> &'static [u8]
        ensures { result.now ≡ word };

    /// Writes the operands after the number, each token after a space.
    fn put_operands<W: Write>(&self, output: &mut Output<'_, W>)
        ensures { Puts W.contents output.old output.new (flat_map spaced (pieces_of (operands self.now))) };
}

impl AddedHead for Head {
    ghost use Rattle.std.specs.Prelude.{codes};
    ghost use Rattle.script_steps.specs.Presets.{head_operands};

    ghost word = { codes "add-preset" };

    ghost operands = { head_operands };

    fn word() -> &'static [u8] {
        b"add-preset"
    }

    fn put_operands<W: Write>(&self, output: &mut Output<'_, W>) {
        let name = Piece::Name(BorrowedBytes::new(self.name.bytes()));
        let number = Piece::Number(u64::from(self.number));
        let bank = Piece::Number(u64::from(self.bank));
        let library = Piece::Number(u64::from(self.library));
        let genre = Piece::Number(u64::from(self.genre));
        let morphology = Piece::Number(u64::from(self.morphology));
        put_pieces(&[name, number, bank, library, genre, morphology], output);
    }
}

impl AddedHead for Name20 {
    ghost use Rattle.std.specs.Prelude.{codes};
    ghost use Rattle.script_steps.specs.Instruments.{name_operands};

    ghost word = { codes "add-inst" };

    ghost operands = { name_operands };

    fn word() -> &'static [u8] {
        b"add-inst"
    }

    fn put_operands<W: Write>(&self, output: &mut Output<'_, W>) {
        put_name(self, output);
    }
}

// Writes a line for each preset, or for each instrument.
#[tactic(auto, using(base_outputs::proofs::OutputLaws::putting_start))]
pub(crate) fn put_owners<H: AddedHead, W: Write>(owners: &Owners<H>, output: &mut Output<'_, W>)
    ensures { Puts W.contents output.old output.new (owner_lines H.word H.operands 0 owners.now) }
{
    for number in 0..owners.len() {
        put_owner(owners, number, output);
    }
}

// Writes the line of owner `i`.
fn put_owner<H: AddedHead, W: Write>(owners: &Owners<H>, i: usize, output: &mut Output<'_, W>)
    requires { i < length owners.now }
    ensures { IfSome (slice_get owners.now i) (λ x. Puts W.contents output.old output.new (owner_line H.word H.operands i x)) }
{
    output.put(H::word());
    put_pieces(&[Piece::Number(i as u64)], output);
    owners.head(i).put_operands(output);
    put_zones_of(owners, i, output);
    output.put(b"\n");
}
