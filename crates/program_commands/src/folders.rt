//! Reads the operands of the commands that read or write a bank as a folder.
ghost use Rattle.program_commands.specs.declared.words.Request.TheVariants as Request;
ghost use Rattle.program_commands.specs.Words.{operands_of, rows_in, AreGiven, FindsOne};

use crate::paths::{read_input, read_output, read_path};
use crate::words::{PackPaths, UnpackPaths, read_flag};
use clap::ArgMatches;

/// Returns the operands of `pack`, if the words give them.
pub(crate) fn read_pack<'a>(matches: &ArgMatches<'a>) -> Option<PackPaths<'a>>
    ensures { FindsOne result (λ paths. AreGiven (rows_in matches.now) (operands_of (Request.Pack paths))) }
{
    Some(PackPaths {
        folder: read_path(matches, "FOLDER")?,
        out: read_output(matches, "OUT")?,
        force: read_flag(matches, "force"),
    })
}

/// Returns the operands of `unpack`, if the words give them.
pub(crate) fn read_unpack<'a>(matches: &ArgMatches<'a>) -> Option<UnpackPaths<'a>>
    ensures { FindsOne result (λ paths. AreGiven (rows_in matches.now) (operands_of (Request.Unpack paths))) }
{
    Some(UnpackPaths {
        input: read_input(matches, "IN")?,
        folder: read_path(matches, "FOLDER")?,
        force: read_flag(matches, "force"),
    })
}
