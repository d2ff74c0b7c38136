//! A draft: a first bank, the edits so far, and the bank to which they lead.
ghost use Rattle.std.specs.Prelude.{◌≡◌, [], IfOk, OnOk, length};
ghost use Rattle.bank_changes.specs.SampleMoves.{AreMoves};
ghost use Rattle.script_of_bank.specs.LeadsTo.{Leads};
ghost use Rattle.edit_drafts.specs.Drafts.{IsStepResult, AreMovesResult};

use crate::applied_steps::{Stop, apply_step};
use crate::sample_moves::apply_moves;
use bank_core::{Bank, SampleMove};
use bank_edits::sample_move;
use edit_forms::{Edit, Step};
use sf_base::OutOfMemory;
use std::alloc::Global;
use std::marker::Model;

/// A first bank, edits that it accepts in order, and the bank to which they lead.
#[derive(Drop)]
pub struct Draft<'d, 'a> {
    first: &'d Bank<'a>,
    edits: Vec<Edit<'a>>,
    bank: Bank<'a>,
}

impl<'d, 'a> Model for Draft<'d, 'a> {
    ghost use Rattle.script_of_bank.specs.LeadsTo.{Leads};
    ghost use Rattle.edit_drafts.specs.Drafts.{Drafted};
    ghost use Rattle.generators.specs.contracts.gen_map.GenMap as gens;
    ghost use Rattle.std.specs.Coded.{codes};

    ghost Value = { Drafted };

    ghost coded = { Prim.hlevel (codes, gens.the_row.coded) };

    ghost view = { λ d. record { first = d.first.now; edits = d.edits.items; bank = d.bank } };

    ghost invariant = { λ d. Leads d.first.now d.edits.items d.bank };
}

impl<'d, 'a> Draft<'d, 'a> {
    /// A draft with a copy of the bank and no edits.
    pub fn new(alloc: Global, first: &'d Bank<'a>) -> Result<Draft<'d, 'a>, OutOfMemory>
        ensures first { IfOk result (λ draft. draft.first ≡ first.now) }
        ensures same { IfOk result (λ draft. draft.bank ≡ first.now) }
        ensures none { IfOk result (λ draft. draft.edits ≡ []) }
    {
        let bank = first.copy(alloc)?;
        Ok(Draft {
            first,
            edits: Vec::new(alloc),
            bank,
        })
    }

    /// The bank after the edits.
    pub fn bank(&self) -> &Bank<'a>
        ensures { result.now ≡ self.now.bank }
    {
        &self.bank
    }

    /// The edits, which lead from the first bank to the edited bank.
    pub fn into_edits(self) -> Vec<Edit<'a>>
        ensures edits { result.items ≡ self.entry.edits }
        ensures leads { Leads self.entry.first result.items self.entry.bank }
    {
        self.edits
    }

    /// Applies steps in order, up to the first one that fails. Moves of samples that follow one another are applied
    /// together.
    pub fn edit_all(&mut self, alloc: Global, steps: Vec<Step<'a>>) -> Result<(), Stop>
        ensures { self.new.first ≡ self.old.first }
    {
        let mut moves = Vec::new(alloc);
        for step in steps {
            self.gather_or_edit(alloc, &mut moves, step)?;
        }
        self.move_samples(alloc, &moves)
    }

    // Adds a move of a sample to the moves that are to be applied together. Any other step is applied, after the moves
    // so far.
    fn gather_or_edit(
        &mut self,
        alloc: Global,
        moves: &mut Vec<SampleMove>,
        step: Step<'a>,
    ) -> Result<(), Stop>
        requires { AreMoves (length self.old.bank.samples) moves.old.items }
        ensures first { self.new.first ≡ self.old.first }
        ensures moves { OnOk result (AreMoves (length self.new.bank.samples) moves.new.items) }
    {
        let Some(change) = sample_move(&self.bank, &step) else {
            self.move_samples(alloc, moves)?;
            moves.clear();
            return self.edit(alloc, step);
        };
        if moves.push(change).is_err() {
            return Err(Stop::OutOfMemory);
        }
        Ok(())
    }

    // Applies moves of samples together. If that fails, nothing changes.
    fn move_samples(&mut self, alloc: Global, moves: &[SampleMove]) -> Result<(), Stop>
        requires { AreMoves (length self.old.bank.samples) moves.now }
        ensures first { self.new.first ≡ self.old.first }
        ensures done { AreMovesResult self.old.bank self.new.bank self.old.edits self.new.edits moves.now result }
    {
        if moves.is_empty() {
            return Ok(());
        }
        apply_moves(alloc, &mut self.bank, &mut self.edits, moves)
    }

    /// Applies one step. If it fails, nothing changes.
    pub fn edit(&mut self, alloc: Global, step: Step<'a>) -> Result<(), Stop>
        ensures first { self.new.first ≡ self.old.first }
        ensures done { IsStepResult self.old.bank self.new.bank self.old.edits self.new.edits step.entry result }
    {
        apply_step(alloc, &mut self.bank, &mut self.edits, step)
    }
}
