//! What `explain` is asked about, and the flags that ask for what a terminal gets.
ghost use Rattle.std.specs.Prelude.{◌≡◌, map};
ghost use Rattle.program_commands.specs.Words.{asks_for_explanations, is_explaining, rows_in, topic_operands};
ghost use Rattle.program_commands.specs.Words.{AreGiven, FindsOne, IsTopic};

use crate::words::read_word;
use clap::ArgMatches;
use std::convert::AsStr;

/// What `explain` is asked about.
#[derive(Clone, Copy)]
pub enum Topic<'a> {
    /// The fault or refusal with this number.
    Number(u32),
    /// The faults and refusals with this name.
    Name(&'a str),
    /// The generators.
    Generators,
}

/// Whether the words ask for what a terminal gets: explanations of faults, and reports. They do if `--explain` or
/// `--report` is one of those before the first `--`. It depends on the words alone, also where clap rejects them.
pub fn asks_for_explanations<S: AsStr>(words: &[S]) -> bool
    ensures { result ≡ asks_for_explanations (map S.text words.now) }
{
    words
        .iter()
        .take_while(|word| word.as_str() != "--")
        .any(|word| is_explaining(word.as_str()))
}

// Whether the word is one of the two flags.
fn is_explaining(word: &str) -> bool
    ensures { result ≡ is_explaining word.now }
{
    word == "--explain" || word == "--report"
}

pub(crate) fn read_topic<'a>(matches: &ArgMatches<'a>) -> Option<Topic<'a>>
    ensures { FindsOne result (λ topic. AreGiven (rows_in matches.now) (topic_operands topic)) }
{
    Some(topic_of(read_word(matches, "TOPIC")?))
}

// Returns the topic that a word is. Each word is one.
fn topic_of<'a>(word: &'a str) -> Topic<'a>
    ensures { IsTopic word.now result }
{
    if word == "generators" {
        return Topic::Generators;
    }
    match word.parse::<u32>() {
        Ok(number) => Topic::Number(number),
        Err(_) => Topic::Name(word),
    }
}
