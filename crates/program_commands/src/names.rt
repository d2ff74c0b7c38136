//! The names of samples and of other members.
ghost use Rattle.std.specs.Prelude.{◌≡◌, []};
ghost use Rattle.std.specs.Option.{unwrap_or};
ghost use Rattle.std.specs.Path.{path_file_stem};
ghost use Rattle.sf_base.specs.Names.{IsName};
ghost use Rattle.program_commands.specs.Words.{optional_name, rows_in, FindsOne, IsGiven};

use crate::words::read_word;
use clap::ArgMatches;
use sf_base::Name20;
use std::path::Path;

/// Returns the name of a recording: the file name of its path, without the extension. It is empty where the path
/// has no file name, as `/` and `..`. That of a recording from the standard input, which `-` names, is `stdin`.
pub fn recording_name(path: &str) -> &str
    ensures { result.now ≡ unwrap_or (path_file_stem path.now) [] }
{
    match Path::new(path).file_stem() {
        Some(name) => name,
        None => "",
    }
}

/// Returns the name that the option gives, if it is used.
pub(crate) fn read_optional_name(matches: &ArgMatches<'_>, option: &str) -> Option<Option<Name20>>
    ensures { FindsOne result (λ name. IsGiven (rows_in matches.now) (optional_name option.now name)) }
{
    match read_word(matches, option) {
        Some(text) => Some(Some(parse_name(text)?)),
        None => Some(None),
    }
}

/// Returns the name with these bytes.
pub(crate) fn parse_name(text: &str) -> Option<Name20>
    ensures { FindsOne result (λ name. (name ≡ text.now) × IsName name) }
{
    Name20::from_bytes(text.as_bytes()).ok()
}
