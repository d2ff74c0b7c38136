//! Tests of `print` and of copies of steps.

use edit_forms::{Edit, SampleStep, Step};
use edit_script::{parse, pool_of, print};
use sf_base::Name20;
use std::alloc::Global;
use std::test::Fail;

/// Whether an edit and a copy of its step are both printed as this line.
fn is_printed(alloc: Global, edit: &Edit<'_>, line: &[u8]) -> bool {
    let Edit::One(step) = edit else {
        return false;
    };
    let Ok(copy) = step.copy(alloc) else {
        return false;
    };
    let mut out = Vec::new(alloc);
    let mut copied = Vec::new(alloc);
    print(edit, &mut out).is_ok()
        && out.as_slice() == line
        && print(&Edit::One(copy), &mut copied).is_ok()
        && copied.as_slice() == line
}

const ADD: &[u8] =
    b"add-inst 1 \"j\" { global g 54 1 m 1 2 3 4 5 } { 0 g 43 0..59 } { 0 m 1 2 3 4 5 }\n";

#[test]
fn edits_are_printed_and_copied(rt: HostRuntime) -> Result<(), Fail> {
    let alloc = rt.alloc();
    let name = Name20::from_bytes(b"say \"a\"")?;
    let sample = u32::MAX;
    let rename = Edit::One(Step::Sample(SampleStep::RenameSample { sample, name }));
    assert!(rt;
        is_printed(
            alloc,
            &rename,
            b"rename-sample 4294967295 x73617920226122\n"
        )
    );
    let pool = pool_of(alloc, ADD)?;
    for line in parse(alloc, ADD, pool.as_slice())? {
        assert!(rt; is_printed(alloc, &line.edit, ADD));
    }
    Ok(())
}
