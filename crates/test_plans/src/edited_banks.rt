//! Banks after scripts, and edits as texts.
ghost use Rattle.std.specs.Prelude.{◌≡◌, Ok};
ghost use Rattle.script_tokens.specs.Pool.{pool_bytes};

use bank_core::Bank;
use bank_edits::apply;
use edit_forms::Edit;
use edit_script::{Line, parse, print};
use sf_reader::read;
use std::alloc::Global;
use std::test::Fail;

fn apply_line<'a>(alloc: Global, bank: &mut Bank<'a>, line: Line<'a>) -> bool {
    apply(alloc, bank, line.into_edit()).is_ok()
}

fn apply_lines<'a>(alloc: Global, bank: &mut Bank<'a>, lines: Vec<Line<'a>>) {
    for line in lines {
        let _ = apply_line(alloc, bank, line);
    }
}

/// The bank of a file after a script. `pool` has the script's literals.
pub(crate) fn edited<'a>(
    alloc: Global,
    file: &'a [u8],
    script: &[u8],
    pool: &'a [u8],
) -> Result<Bank<'a>, Fail>
    requires { pool_bytes script.now ≡ Ok pool.now }
{
    let (mut bank, _counts) = read(alloc, file)?;
    let lines = parse(alloc, script, pool)?;
    apply_lines(alloc, &mut bank, lines);
    Ok(bank)
}

/// Edits as a script.
pub(crate) fn print_edits(alloc: Global, edits: &[Edit<'_>]) -> Vec<u8> {
    let mut text = Vec::new(alloc);
    for edit in edits {
        let _ = print(edit, &mut text);
    }
    text
}
