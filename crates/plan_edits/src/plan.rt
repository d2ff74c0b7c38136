//! What finds edits for a bank.
ghost use Rattle.std.specs.Prelude.{IfOk};

use crate::fault::PlanFault;
use bank_core::Bank;
use edit_forms::Edit;
use std::alloc::Global;

/// A plan: it finds edits for any bank, which the bank accepts in order and which keep a promise. The edits borrow what
/// the bank borrows.
pub trait Plan<'a> {
    ghost use Rattle.std.specs.Prelude.{List, IfOk};
    ghost use Rattle.bank_parts.specs.declared.parts.Parts.{Parts};
    ghost use Rattle.edit_forms.specs.declared.edit.Edit.{Edit};
    ghost use Rattle.bank_edits.specs.Runs.{AllAccepted};

    // What it promises of a bank and the edits for it.
    ghost promise: { Self → Parts → List Edit → Type 0 };

    /// Finds the edits for a bank. `PlanFault::Defect` means that none were found that keep the promise.
    fn edits(&self, alloc: Global, bank: &Bank<'a>) -> Result<Vec<Edit<'a>>, PlanFault>
        ensures accepted { IfOk result (λ edits. AllAccepted bank.now edits.items) }
        ensures promised { IfOk result (λ edits. promise self.now bank.now edits.items) };
}
