//! Tests of scripts with comments: their text, and the edits that it is read as.
ghost use Rattle.std.specs.Prelude.{◌≡◌, Ok};
ghost use Rattle.script_tokens.specs.Pool.{pool_bytes};

use crate::listing::listed_edits;
use crate::script::CommentedScript;
use bank_core::{Bank, Owners, Parts, Texts};
use bank_edits::apply;
use bank_linked_members::LinkedMembers;
use base_texts::write_text;
use edit_script::{Line, parse, pool_of, print};
use script_of_bank::{BankScript, SamplePoints};
use sf_base::BorrowedBytes;
use std::alloc::Global;
use std::test::Fail;

/// A bank with each kind of member, as its script: texts, samples with a link and with none, instruments with a global
/// zone and without zones, and presets.
const SCRIPT: &[u8] = b"# sfbank new --minor 4
set-info isng \"EMU8000\"
set-info INAM \"Keys # 1\"
add-sample 0 \"Piano L\" 44100 60 0 mono loop 0 2 x0100ff7f
add-sample 1 \"Piano R\" 44100 60 -3 mono noloop x00000000
add-sample 2 x4120224222 22050 72 0 mono noloop x
set-kind 0 left 1
set-kind 1 right 0
add-inst 0 \"Grand\" { global g 48 60 m 1282 48 480 0 0 } { 0 g 17 -500 } { 1 g 17 500 }
add-inst 1 \"\"
add-preset 0 \"Concert\" 0 0 0 0 0 { 0 g 43 0..65 } { 1 }
add-preset 1 \"Empty\" 5 128 1 2 3
";

/// The same with comments.
const COMMENTED: &[u8] = b"# sfbank new --minor 4
set-info isng \"EMU8000\"
set-info INAM \"Keys # 1\"
add-sample 0 \"Piano L\" 44100 60 0 mono loop 0 2 x0100ff7f
add-sample 1 \"Piano R\" 44100 60 -3 mono noloop x00000000
add-sample 2 x4120224222 22050 72 0 mono noloop x
set-kind 0 left 1   # \"Piano L\" \"Piano R\"
set-kind 1 right 0   # \"Piano R\" \"Piano L\"
add-inst 0 \"Grand\" { global g 48 60 m 1282 48 480 0 0 } { 0 g 17 -500 } { 1 g 17 500 }   \
# 0 \"Piano L\", 1 \"Piano R\", 17 pan, 48 initialAttenuation
add-inst 1 \"\"
add-preset 0 \"Concert\" 0 0 0 0 0 { 0 g 43 0..65 } { 1 }   # 0 \"Grand\", 1 \"\", 43 keyRange
add-preset 1 \"Empty\" 5 128 1 2 3
";

/// The same without points.
const WITHOUT_POINTS: &[u8] = b"# sfbank new --minor 4 without points
set-info isng \"EMU8000\"
set-info INAM \"Keys # 1\"
add-sample 0 \"Piano L\" 44100 60 0 mono loop 0 2 x
add-sample 1 \"Piano R\" 44100 60 -3 mono noloop x
add-sample 2 x4120224222 22050 72 0 mono noloop x
set-kind 0 left 1   # \"Piano L\" \"Piano R\"
set-kind 1 right 0   # \"Piano R\" \"Piano L\"
add-inst 0 \"Grand\" { global g 48 60 m 1282 48 480 0 0 } { 0 g 17 -500 } { 1 g 17 500 }   \
# 0 \"Piano L\", 1 \"Piano R\", 17 pan, 48 initialAttenuation
add-inst 1 \"\"
add-preset 0 \"Concert\" 0 0 0 0 0 { 0 g 43 0..65 } { 1 }   # 0 \"Grand\", 1 \"\", 43 keyRange
add-preset 1 \"Empty\" 5 128 1 2 3
";

fn empty_bank<'a>(alloc: Global) -> Result<Bank<'a>, Fail> {
    let parts = Parts {
        minor: 4,
        texts: Texts {
            engine: BorrowedBytes::new(b"EMU8000"),
            name: BorrowedBytes::new(b""),
            date: BorrowedBytes::new(b""),
            engineers: BorrowedBytes::new(b""),
            product: BorrowedBytes::new(b""),
            copyright: BorrowedBytes::new(b""),
            comment: BorrowedBytes::new(b""),
            software: BorrowedBytes::new(b""),
        },
        presets: Owners::with_capacity(alloc, 0)?,
        instruments: Owners::with_capacity(alloc, 0)?,
        samples: LinkedMembers::new(alloc),
    };
    Ok(Bank::from_parts(alloc, parts)?)
}

fn apply_line<'a>(alloc: Global, bank: &mut Bank<'a>, line: Line<'a>) -> bool {
    apply(alloc, bank, line.into_edit()).is_ok()
}

/// The bank that a script makes of the empty bank. `pool` has the script's literals.
fn bank_of<'a>(alloc: Global, script: &[u8], pool: &'a [u8]) -> Result<Bank<'a>, Fail>
    requires { pool_bytes script.now ≡ Ok pool.now }
{
    let mut bank = empty_bank(alloc)?;
    for line in parse(alloc, script, pool)? {
        let _ = apply_line(alloc, &mut bank, line);
    }
    Ok(bank)
}

/// The number of each line of a script, and its edit as it is printed.
fn edits_read(alloc: Global, script: &[u8]) -> Result<Vec<u8>, Fail> {
    let pool = pool_of(alloc, script)?;
    let mut text = Vec::new(alloc);
    for line in parse(alloc, script, pool.as_slice())? {
        text.extend_from_slice(&line.number.to_le_bytes())?;
        print(&line.edit, &mut text)?;
    }
    Ok(text)
}

/// The text of the bank of a script with comments.
fn commented(alloc: Global, script: &[u8], points: SamplePoints) -> Result<Vec<u8>, Fail> {
    let pool = pool_of(alloc, script)?;
    let bank = bank_of(alloc, script, pool.as_slice())?;
    let edits = listed_edits(alloc, &bank, points)?;
    let commented = CommentedScript {
        bank: &bank,
        points,
        edits: edits.as_slice(),
    };
    let mut text = Vec::new(alloc);
    write_text(&commented, &mut text)?;
    Ok(text)
}

/// The text of the bank of a script without comments.
fn uncommented(alloc: Global, script: &[u8], points: SamplePoints) -> Result<Vec<u8>, Fail> {
    let pool = pool_of(alloc, script)?;
    let bank = bank_of(alloc, script, pool.as_slice())?;
    let mut text = Vec::new(alloc);
    write_text(
        &BankScript {
            bank: &bank,
            points,
        },
        &mut text,
    )?;
    Ok(text)
}

#[test]
fn lines_of_a_bank_have_comments(rt: HostRuntime) -> Result<(), Fail> {
    assert!(rt; commented(rt.alloc(), SCRIPT, SamplePoints::Kept)?.as_slice() == COMMENTED);
    assert!(rt; commented(rt.alloc(), SCRIPT, SamplePoints::LeftOut)?.as_slice() == WITHOUT_POINTS);
    assert!(rt; commented(rt.alloc(), COMMENTED, SamplePoints::Kept)?.as_slice() == COMMENTED);
    Ok(())
}

#[test]
fn comments_change_no_edit(rt: HostRuntime) -> Result<(), Fail> {
    assert!(rt; uncommented(rt.alloc(), SCRIPT, SamplePoints::Kept)?.as_slice() == SCRIPT);
    for points in [SamplePoints::Kept, SamplePoints::LeftOut] {
        let plain = uncommented(rt.alloc(), SCRIPT, points)?;
        let text = commented(rt.alloc(), SCRIPT, points)?;
        let (read, wanted) = (
            edits_read(rt.alloc(), text.as_slice())?,
            edits_read(rt.alloc(), plain.as_slice())?,
        );
        assert!(rt; read.as_slice() == wanted.as_slice());
        assert!(rt; !read.is_empty());
    }
    Ok(())
}
