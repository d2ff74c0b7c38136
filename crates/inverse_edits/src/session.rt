//! A bank with its undo and redo lists.
ghost use Rattle.std.specs.Prelude.{◌≡◌, ◌+◌, Some, IfErr, MatchOption, OnOk, OnErr, length, slice_get};
ghost use Rattle.inverse_edits.specs.Histories.{IsHistory, bank_now, new_history, IsEdited, IsRefusalNow, MovesForward, IsUndoFailure, IsRedoFailure, undo_edits, IsLast};

use crate::undo_redo::{apply_edit, apply_last};
use bank_core::Bank;
use edit_forms::Edit;
use edit_refusals::Refusal;
use std::alloc::Global;
use std::marker::Model;

/// An editing session: a list of banks, each made from the one before by an edit, and a current bank.
///
/// Only the current bank is stored. The others follow from two lists of edits: those that undo, the oldest edit's
/// first, and those that redo, the next one last.
pub struct Session<'a> {
    bank: Bank<'a>,
    undo: Vec<Edit<'a>>,
    redo: Vec<Edit<'a>>,
}

// Written by hand: a derived drop is inlined wherever a value that holds a session is dropped.
impl Drop for Session<'_> {
    fn drop(self) {
        let Session {
            bank: _,
            undo: _,
            redo: _,
        } = self;
    }
}

impl<'a> Model for Session<'a> {
    ghost use Rattle.std.specs.Prelude.{reverse};
    ghost use Rattle.bank_parts.specs.Sound.{IsSound};
    ghost use Rattle.bank_edits.specs.Runs.{AllAccepted};
    ghost use Rattle.inverse_edits.specs.Histories.{History, history_of};
    ghost use Rattle.generators.specs.contracts.gen_map.GenMap as gens;
    ghost use Rattle.std.specs.Coded.{codes};

    ghost Value = { History };

    ghost coded = { Prim.hlevel (codes, gens.the_row.coded) };

    ghost view = { λ s. history_of s.bank (reverse s.undo.items) (reverse s.redo.items) };

    ghost invariant = { λ s. IsSound s.bank × AllAccepted s.bank (reverse s.undo.items) × AllAccepted s.bank (reverse s.redo.items) };
}

impl<'a> Session<'a> {
    /// Starts a session with this bank. It allocates nothing.
    pub fn new(alloc: Global, bank: Bank<'a>) -> Session<'a>
        ensures { result ≡ new_history bank.entry }
    {
        bank.soundness();
        Session {
            bank,
            undo: Vec::new(alloc),
            redo: Vec::new(alloc),
        }
    }

    /// Returns the current bank.
    pub fn bank(&self) -> &Bank<'a>
        ensures value { bank_now self.now ≡ Some result.now }
        ensures history { IsHistory self.now }
    {
        &self.bank
    }

    /// Applies an edit to the current bank, and clears the redo list.
    ///
    /// A refused edit is returned with the reason, and nothing changes: one step is refused for its first cause, a
    /// group for its first refused step. `OutOfMemory` may be returned in any case.
    pub fn edit(&mut self, alloc: Global, edit: Edit<'a>) -> Result<(), (Refusal, Edit<'a>)>
        ensures done { OnOk result (IsEdited self.old self.new edit.entry) }
        ensures unchanged { OnErr result (self.new ≡ self.old) }
        ensures refused { IfErr result (λ refused. IsRefusalNow self.old edit.entry refused.0) }
        ensures edit_returned { IfErr result (λ refused. refused.1 ≡ edit.entry) }
    {
        match apply_edit(alloc, &mut self.bank, &mut self.undo, edit) {
            Ok(()) => {
                self.redo = Vec::new(alloc);
                Ok(())
            }
            Err(refused) => Err(refused),
        }
    }

    /// Undoes the last edit. Returns `NothingToUndo` at the first bank, and otherwise fails only with `OutOfMemory`;
    /// nothing changes then.
    pub fn undo(&mut self, alloc: Global) -> Result<(), Refusal>
        ensures done { OnOk result (MovesForward self.new self.old) }
        ensures unchanged { OnErr result (self.new ≡ self.old) }
        ensures failure { IfErr result (IsUndoFailure self.old) }
    {
        apply_last(
            alloc,
            &mut self.bank,
            &mut self.undo,
            &mut self.redo,
            Refusal::NothingToUndo,
        )
    }

    /// Redoes the next edit. Returns `NothingToRedo` at the last bank, and otherwise fails only with `OutOfMemory`;
    /// nothing changes then.
    pub fn redo(&mut self, alloc: Global) -> Result<(), Refusal>
        ensures done { OnOk result (MovesForward self.old self.new) }
        ensures unchanged { OnErr result (self.new ≡ self.old) }
        ensures failure { IfErr result (IsRedoFailure self.old) }
    {
        apply_last(
            alloc,
            &mut self.bank,
            &mut self.redo,
            &mut self.undo,
            Refusal::NothingToRedo,
        )
    }

    /// The edit that an undo makes, which is the inverse of the last edit; none at the first bank.
    pub fn next_undo(&self) -> Option<&Edit<'a>>
        ensures { MatchOption result (self.now.index ≡ 0) (λ e. IsLast (undo_edits self.now) e.now) }
    {
        let edits = &self.undo;
        edits.as_slice().last()
    }

    /// The edit that a redo makes; none at the last bank.
    pub fn next_redo(&self) -> Option<&Edit<'a>>
        ensures { MatchOption result (self.now.index + 1 ≡ length self.now.banks) (λ e. slice_get self.now.edits self.now.index ≡ Some e.now) }
    {
        let edits = &self.redo;
        edits.as_slice().last()
    }

    /// Returns the inverses of all edits up to the current bank, the oldest edit's first. Applied from the last to
    /// the first, they restore the first bank.
    pub fn undo_list(&self) -> &[Edit<'a>]
        ensures { result.now ≡ undo_edits self.now }
    {
        self.undo.as_slice()
    }
}
