//! The paths that words name: `-` is the standard input or the standard output.
ghost use Rattle.std.specs.Prelude.{◌≡◌, option_map};
ghost use Rattle.clap.specs.Words.{first_of};
ghost use Rattle.program_commands.specs.Words.{input_named, optional_output, output_named, paths_in, rows_in};
ghost use Rattle.program_commands.specs.Words.{FindsOne, IsGiven, Path, Recordings};

use crate::words::read_word;
use clap::ArgMatches;

/// The word for the standard input and the standard output.
const STANDARD: &str = "-";

/// The path of the standard input.
const STANDARD_INPUT: &str = "/dev/stdin";

/// The path of the standard output.
const STANDARD_OUTPUT: &str = "/dev/stdout";

/// The recordings and the outputs of `import`.
#[derive(Clone, Copy)]
pub(crate) struct LastPaths<'m, 'a> {
    /// The words of the recordings.
    pub(crate) recordings: &'m [&'a str],
    /// The path of the bank that is written.
    pub(crate) out: &'a str,
    /// The path of the undo script.
    pub(crate) undo: &'a str,
}

/// Returns the path of the input that the operand names, if it is used.
pub(crate) fn read_input<'a>(matches: &ArgMatches<'a>, name: &str) -> Option<&'a str>
    ensures { option_map (λ path. path.now) result
        ≡ option_map input_named (first_of name.now (rows_in matches.now)) }
{
    Some(input_named(read_word(matches, name)?))
}

/// Returns the path of the output that the operand names, if it is used.
pub(crate) fn read_output<'a>(matches: &ArgMatches<'a>, name: &str) -> Option<&'a str>
    ensures { option_map (λ path. path.now) result
        ≡ option_map output_named (first_of name.now (rows_in matches.now)) }
{
    Some(output_named(read_word(matches, name)?))
}

/// Returns the path of the output that the option names, if it is used.
pub(crate) fn read_optional_output<'a>(matches: &ArgMatches<'a>, name: &str) -> Option<&'a str>
    ensures { IsGiven (rows_in matches.now) (optional_output name.now result) }
{
    read_output(matches, name)
}

/// Returns the path of the operand, which must not be `-`.
pub(crate) fn read_path<'a>(matches: &ArgMatches<'a>, name: &str) -> Option<&'a str>
    ensures { FindsOne result (λ path. IsGiven (rows_in matches.now) (Path name.now path.now)) }
{
    let path = read_word(matches, name)?;
    if path == STANDARD { None } else { Some(path) }
}

/// Returns the paths of the operand, if there are at least two.
pub(crate) fn read_last_paths<'m, 'a>(
    matches: &'m ArgMatches<'a>,
    name: &str,
) -> Option<LastPaths<'m, 'a>>
    ensures { FindsOne (option_map paths_in result)
        (λ paths. IsGiven (rows_in matches.now) (Recordings name.now paths.0 paths.1 paths.2)) }
{
    let words = matches.get_strs(name)?;
    let (undo, before) = words.split_last()?;
    let (out, recordings) = before.split_last()?;
    Some(LastPaths {
        recordings,
        out: output_named(out),
        undo: output_named(undo),
    })
}

/// Returns the path of the input that the word names.
pub(crate) fn input_named<'a>(word: &'a str) -> &'a str
    ensures { result.now ≡ input_named word.now }
{
    if word == STANDARD {
        STANDARD_INPUT
    } else {
        word
    }
}

fn output_named<'a>(word: &'a str) -> &'a str
    ensures { result.now ≡ output_named word.now }
{
    if word == STANDARD {
        STANDARD_OUTPUT
    } else {
        word
    }
}
