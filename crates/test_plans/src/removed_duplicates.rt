//! Tests of the edits that remove duplicates.

use crate::plans::{SIDES, is_planned};
use edit_script::pool_of;
use plan_take::RemoveDuplicates;
use std::alloc::Global;
use std::test::Fail;
use test_inputs::tone;

fn is_found(alloc: Global, script: &[u8], wanted: &[u8]) -> Result<bool, Fail> {
    let (pool, file) = (pool_of(alloc, script)?, tone());
    let plan = RemoveDuplicates;
    is_planned(alloc, file.bytes(), script, pool.as_slice(), &plan, wanted)
}

/// The sample of the file under another name, and an instrument that uses it otherwise.
const SAMPLE: &[u8] = b"add-sample 1 \"u\" 44100 60 0 mono loop 1 3 xe803d00730f8
add-inst 1 \"j\" { 1 g 17 5 }
add-preset 1 \"q\" 1 0 0 0 0 { 1 }
";

/// The sample and the instrument of the file under other names.
const INSTRUMENT: &[u8] = b"add-sample 1 \"u\" 44100 60 0 mono loop 1 3 xe803d00730f8
add-inst 1 \"j\" { 1 g 54 1 }
add-preset 1 \"q\" 1 0 0 0 0 { 1 }
";

/// The sample of the file with another loop.
const LOOP: &[u8] = b"add-sample 1 \"u\" 44100 60 0 mono loop 0 3 xe803d00730f8
add-inst 1 \"j\" { 1 g 54 1 }
add-preset 1 \"q\" 1 0 0 0 0 { 1 }
";

/// An instrument with the sample of the file and an equal one, each for a range of keys.
const RANGES: &[u8] = b"add-sample 1 \"u\" 44100 60 0 mono loop 1 3 xe803d00730f8
add-inst 1 \"j\" { 0 g 43 0..59 } { 1 g 43 60..127 }
add-preset 1 \"q\" 1 0 0 0 0 { 1 }
";

/// Three samples with equal ends, of which two are equal.
const ENDS: &[u8] = b"add-sample 1 \"u\" 44100 60 0 mono noloop \
x0000000000000000000000000000000000000000000000000000000000000000\
010002000000000000000000000000000000000000000000000000000000000000000000
add-sample 2 \"v\" 44100 60 0 mono noloop \
x0000000000000000000000000000000000000000000000000000000000000000\
030004000000000000000000000000000000000000000000000000000000000000000000
add-sample 3 \"w\" 44100 60 0 mono noloop \
x0000000000000000000000000000000000000000000000000000000000000000\
030004000000000000000000000000000000000000000000000000000000000000000000
add-inst 1 \"j\" { 1 } { 2 } { 3 g 17 5 }
add-preset 1 \"q\" 1 0 0 0 0 { 1 }
";

/// Two equal pairs of linked samples.
const PAIRS: &[u8] = b"add-sample 1 \"l\" 44100 60 0 mono noloop x0100
add-sample 2 \"r\" 44100 60 0 right 1 noloop x0200
set-kind 1 left 2
add-sample 3 \"m\" 44100 60 0 mono noloop x0100
add-sample 4 \"s\" 44100 60 0 right 3 noloop x0200
set-kind 3 left 4
add-inst 1 \"a\" { 1 } { 2 }
add-inst 2 \"b\" { 3 } { 4 g 17 5 }
add-preset 1 \"a\" 1 0 0 0 0 { 1 } { 2 }
";

/// Two equal pairs, after a pair of which one side is equal.
const SIDE: &[u8] = b"add-sample 1 \"l\" 44100 60 0 mono noloop x0100
add-sample 2 \"r\" 44100 60 0 right 1 noloop x0200
set-kind 1 left 2
add-sample 3 \"m\" 44100 60 0 mono noloop x0100
add-sample 4 \"s\" 44100 60 0 right 3 noloop x0300
set-kind 3 left 4
add-sample 5 \"n\" 44100 60 0 mono noloop x0100
add-sample 6 \"t\" 44100 60 0 right 5 noloop x0300
set-kind 5 left 6
add-inst 1 \"a\" { 1 } { 2 } { 3 } { 4 } { 5 g 17 5 } { 6 g 17 5 }
add-preset 1 \"a\" 1 0 0 0 0 { 1 }
";

/// Two equal instruments of a linked sample, and the same sample without its link.
const MONO: &[u8] = b"add-sample 1 \"l\" 44100 60 0 mono noloop x0100
add-sample 2 \"r\" 44100 60 0 right 1 noloop x0200
set-kind 1 left 2
add-sample 3 \"m\" 44100 60 0 mono noloop x0100
add-inst 1 \"a\" { 1 } { 2 }
add-inst 2 \"b\" { 1 } { 2 }
add-inst 3 \"c\" { 3 }
add-preset 1 \"a\" 1 0 0 0 0 { 1 } { 2 g 51 2 } { 3 }
";

#[test]
fn duplicates_are_removed(rt: HostRuntime) -> Result<(), Fail> {
    for (script, wanted) in [
        (b"".as_slice(), b"".as_slice()),
        (SIDES, b"remove-inst 2\nset-kind 1 mono\nremove-sample 2\n"),
        (LOOP, b""),
        (SAMPLE, b"set-target inst 1 0 0\nremove-sample 1\n"),
        (
            INSTRUMENT,
            b"set-target preset 1 0 0\nremove-inst 1\nremove-sample 1\n",
        ),
        (
            RANGES,
            b"set-target inst 1 1 0\nremove-sample 1\njoin-zone inst 1 0 key bare\n",
        ),
        (ENDS, b"set-target inst 1 2 2\nremove-sample 3\n"),
        (
            PAIRS,
            b"set-target inst 2 0 1\nset-target inst 2 1 2\nset-kind 3 mono\nset-kind 4 mono\nremove-sample 4\nremove-sample 3\n",
        ),
        (
            SIDE,
            b"set-target inst 1 4 3\nset-target inst 1 5 4\nset-kind 5 mono\nset-kind 6 mono\nremove-sample 6\nremove-sample 5\n",
        ),
        (MONO, b"set-target preset 1 1 1\nremove-inst 2\n"),
    ] {
        assert!(rt; is_found(rt.alloc(), script, wanted)?);
    }
    Ok(())
}
