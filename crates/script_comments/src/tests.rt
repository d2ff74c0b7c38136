//! Tests of comments: scripts with the comments of their lines.
ghost use Rattle.std.specs.Prelude.{◌≡◌, Ok};
ghost use Rattle.script_tokens.specs.Pool.{pool_bytes};

use crate::along::{CommentedLines, comments_along};
use bank_core::{Bank, Owners, Parts, Texts};
use bank_edits::apply;
use bank_linked_members::LinkedMembers;
use base_texts::write_text;
use edit_forms::Edit;
use edit_script::{Line, parse, pool_of};
use sf_base::BorrowedBytes;
use std::alloc::Global;
use std::test::Fail;

/// A bank with three samples, two instruments and a preset.
const BANK: &[u8] = b"add-sample 0 \"Piano C4\" 44100 60 0 mono noloop x
add-sample 1 \"Piano C5\" 44100 72 0 mono noloop x
add-sample 2 x4120224222 44100 72 0 mono noloop x
add-inst 0 \"Grand\" { 0 g 43 0..65 } { 1 g 43 66..127 g 51 1 }
add-inst 1 \"\"
add-preset 0 \"Concert\" 0 0 0 0 0 { 0 }
";

fn empty_bank<'a>(alloc: Global) -> Result<Bank<'a>, Fail> {
    let parts = Parts {
        minor: 4,
        texts: Texts {
            engine: BorrowedBytes::new(b"EMU8000"),
            name: BorrowedBytes::new(b""),
            date: BorrowedBytes::new(b""),
            engineers: BorrowedBytes::new(b""),
            product: BorrowedBytes::new(b""),
            copyright: BorrowedBytes::new(b""),
            comment: BorrowedBytes::new(b""),
            software: BorrowedBytes::new(b""),
        },
        presets: Owners::with_capacity(alloc, 0)?,
        instruments: Owners::with_capacity(alloc, 0)?,
        samples: LinkedMembers::new(alloc),
    };
    Ok(Bank::from_parts(alloc, parts)?)
}

fn apply_line<'a>(alloc: Global, bank: &mut Bank<'a>, line: Line<'a>) -> bool {
    apply(alloc, bank, line.into_edit()).is_ok()
}

/// The bank that a script makes of the empty bank. `pool` has the script's literals.
fn bank_of<'a>(alloc: Global, script: &[u8], pool: &'a [u8]) -> Result<Bank<'a>, Fail>
    requires { pool_bytes script.now ≡ Ok pool.now }
{
    let mut bank = empty_bank(alloc)?;
    for line in parse(alloc, script, pool)? {
        let _ = apply_line(alloc, &mut bank, line);
    }
    Ok(bank)
}

/// The edits of a script. `pool` has the script's literals.
fn edits_of<'a>(alloc: Global, script: &[u8], pool: &'a [u8]) -> Result<Vec<Edit<'a>>, Fail>
    requires { pool_bytes script.now ≡ Ok pool.now }
{
    let mut edits = Vec::new(alloc);
    for line in parse(alloc, script, pool)? {
        let _ = edits.push(line.into_edit());
    }
    Ok(edits)
}

/// A script for the bank, with comments.
fn commented(alloc: Global, script: &[u8]) -> Result<Vec<u8>, Fail> {
    let bank_pool = pool_of(alloc, BANK)?;
    let pool = pool_of(alloc, script)?;
    let mut bank = bank_of(alloc, BANK, bank_pool.as_slice())?;
    commented_after(alloc, &mut bank, script, pool.as_slice())
}

/// A script with comments, and `bank` before it. `pool` has the script's literals.
fn commented_after<'a>(
    alloc: Global,
    bank: &mut Bank<'a>,
    script: &[u8],
    pool: &'a [u8],
) -> Result<Vec<u8>, Fail>
    requires { pool_bytes script.now ≡ Ok pool.now }
{
    let edits = edits_of(alloc, script, pool)?;
    let mut text = Vec::new(alloc);
    if let Ok(comments) = comments_along(alloc, bank, edits.as_slice()) {
        let lines = CommentedLines {
            edits: edits.as_slice(),
            comments: &comments,
        };
        write_text(&lines, &mut text)?;
    }
    Ok(text)
}

/// Lines for the bank, each with its comment, each alone.
const LINES: [(&[u8], &[u8]); 27] = [
    (b"remove-preset 0", b"   # \"Concert\""),
    (b"set-head 0 \"Hall\" 1 0", b"   # \"Concert\""),
    (b"move-preset 0 0", b"   # \"Concert\""),
    (
        b"add-preset 0 \"Two\" 1 0 0 0 0 { global g 48 60 } { 1 } { 0 g 43 0..59 g 51 -12 }",
        b"   # 1 \"\", 0 \"Grand\", 43 keyRange, 48 initialAttenuation, 51 coarseTune",
    ),
    (b"add-preset 0 \"None\" 1 0 0 0 0", b""),
    (b"remove-inst 1", b"   # \"\""),
    (b"rename-inst 0 \"Upright\"", b"   # \"Grand\""),
    (b"move-inst 0 1", b"   # \"Grand\""),
    (
        b"add-inst 1 \"Soft\" { 2 m 1282 48 480 0 0 } { 1 g 8 4000 } { 1 g 8 5000 }",
        b"   # 2 x4120224222, 1 \"Piano C5\", 1 \"Piano C5\", 8 initialFilterFc, 48 initialAttenuation",
    ),
    (b"rename-sample 1 \"High\"", b"   # \"Piano C5\""),
    (b"remove-sample 2", b"   # x4120224222"),
    (b"move-sample 2 0", b"   # x4120224222"),
    (b"add-sample 0 \"Left\" 44100 60 0 mono noloop x", b""),
    (
        b"add-sample 1 \"Left\" 44100 60 0 left 2 noloop x",
        b"   # \"Piano C5\"",
    ),
    (
        b"add-sample 1 \"Left\" 44100 60 0 left 0 noloop x",
        b"   # \"Piano C4\"",
    ),
    (b"add-sample 1 \"Left\" 44100 60 0 left 1 noloop x", b""),
    (b"extend 0 x0100 x", b"   # \"Piano C4\""),
    (b"set-kind 0 right 1", b"   # \"Piano C4\" \"Piano C5\""),
    (b"set-tune 0 22050 60 0", b"   # \"Piano C4\""),
    (b"split-zone inst 0 0 key 60", b"   # \"Grand\""),
    (b"set-target inst 0 0 2", b"   # \"Grand\" x4120224222"),
    (b"set-target preset 0 0 1", b"   # \"Concert\" \"\""),
    (
        b"add-zone inst 0 1 { 2 g 58 60 }",
        b"   # \"Grand\", 2 x4120224222, 58 overridingRootKey",
    ),
    (
        b"set-gen inst 0 global 51 -12",
        b"   # \"Grand\" coarseTune",
    ),
    (
        b"add-mod preset 0 0 0 2 17 500 0 0",
        b"   # \"Concert\" pan",
    ),
    (b"add-mod preset 0 0 0 2 60 500 0 0", b"   # \"Concert\""),
    (b"set-info ICMT \"made by hand\"", b""),
];

/// Whether a line alone is printed with this comment.
fn has_comment(alloc: Global, line: &[u8], comment: &[u8]) -> Result<bool, Fail> {
    let text = commented(alloc, line)?;
    let mut wanted = Vec::new(alloc);
    wanted.extend_from_slice(line)?;
    wanted.extend_from_slice(comment)?;
    wanted.push(b'\n')?;
    Ok(text.as_slice() == wanted.as_slice())
}

#[test]
fn lines_have_comments(rt: HostRuntime) -> Result<(), Fail> {
    for (number, (line, comment)) in LINES.into_iter().enumerate() {
        assert!(rt; has_comment(rt.alloc(), line, comment)?, "line {number}");
    }
    Ok(())
}

/// Lines of which each changes the bank for the next.
const SCRIPT: &[u8] = b"move-sample 1 0   # \"Piano C5\"
rename-sample 0 \"High\"   # \"Piano C5\"
set-target inst 0 0 0   # \"Grand\" \"High\"
group
group { set-info ICMT \"x\" }
group { set-gen inst 0 1 52 5 } { move-inst 0 1 } { clear-gen inst 1 1 52 }   # \"Grand\", fineTune, fineTune
group { remove-preset 0 } { remove-inst 1 } { add-inst 0 \"New\" { 1 g 17 0 } }   # \"Concert\", 17 pan
";

#[test]
fn comments_follow_the_bank(rt: HostRuntime) -> Result<(), Fail> {
    assert!(rt; commented(rt.alloc(), SCRIPT)?.as_slice() == SCRIPT);
    Ok(())
}
