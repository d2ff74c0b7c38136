//! Proposes edits of texts.
use crate::pushing::push_step;
use bank_core::{Bank, InfoId};
use edit_forms::{Step, TextStep};
use sf_base::{BorrowedBytes, OutOfMemory};
use std::alloc::Global;

const IDS: [InfoId; 8] = [
    InfoId::Engine,
    InfoId::Name,
    InfoId::Date,
    InfoId::Engineers,
    InfoId::Product,
    InfoId::Copyright,
    InfoId::Comment,
    InfoId::Software,
];

/// Steps that give the bank `now` the texts of the bank `to`.
pub(crate) fn text_steps<'a>(
    alloc: Global,
    now: &Bank<'a>,
    to: &Bank<'a>,
) -> Result<Vec<Step<'a>>, OutOfMemory> {
    let mut steps = Vec::new(alloc);
    for id in IDS {
        let text = to.info(id);
        if now.info(id) != text {
            let text = BorrowedBytes::new(text);
            push_step(&mut steps, Step::Text(TextStep::SetInfo { id, text }))?;
        }
    }
    Ok(steps)
}
