//! What helps with the fault of a run.

use crate::run_fault::RunFault;
use kit_tables::KitFault;
use program_hints::{Remarks, remark_on_notes, remark_on_row, remark_on_script};
use script_notes::NoteFault;
use std::alloc::Global;

/// Adds the line of a script, a note list or a table that a run's fault is about, and what is wrong in it, before what
/// is remarked already.
pub fn remark_on_run(alloc: Global, text: &[u8], fault: &RunFault, remarks: &mut Remarks) {
    if !remarks.is_wanted() {
        return;
    }
    let mut first = Remarks::new(true);
    remark_on_line(alloc, text, fault, &mut first);
    first.append(remarks);
    *remarks = first;
}

fn remark_on_line(alloc: Global, text: &[u8], fault: &RunFault, remarks: &mut Remarks) {
    match fault {
        RunFault::Script(fault) => remark_on_script(alloc, text, fault.line(), true, remarks),
        RunFault::Refused(line, _) | RunFault::NotNeutral(line) => {
            remark_on_script(alloc, text, *line, false, remarks);
        }
        RunFault::Notes(fault) => remark_on_notes(text, fault.line(), is_malformed(fault), remarks),
        RunFault::Table(fault) => remark_on_table(text, fault, remarks),
        _ => {}
    }
}

fn remark_on_table(table: &[u8], fault: &KitFault, remarks: &mut Remarks) {
    match fault {
        KitFault::BadRow(line) => remark_on_row(table, *line, true, remarks),
        KitFault::TooManyRows(line) => remark_on_row(table, *line, false, remarks),
        KitFault::NoRows(_) => {}
    }
}

fn is_malformed(fault: &NoteFault) -> bool {
    match fault {
        NoteFault::BadNote(_) => true,
        _ => false,
    }
}
