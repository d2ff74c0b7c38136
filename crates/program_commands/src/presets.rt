//! Presets that the values of an option name.
ghost use Rattle.std.specs.Prelude.{◌≡◌, IfOk, map};
ghost use Rattle.std.specs.List.{AllZip};
ghost use Rattle.program_commands.specs.Words.{optional_preset, rows_in, AreValues, FindsOne, IsDecimal, IsGiven};
ghost use Rattle.program_commands.specs.Words.{IsPreset, IsTakenPreset};

use crate::words::read_word;
use clap::ArgMatches;
use plan_presets::{PresetNumbers, TakenPreset};
use std::alloc::{AllocError, Global};

/// What a text can name.
pub(crate) trait Named: Drop {
    ghost use Rattle.std.specs.Prelude.{List, ℕ};
    ghost use Rattle.program_commands.specs.Words.{FindsOne};

    // The text names the value.
    ghost IsNamed: { List ℕ → Self → Type 0 };

    /// Returns what the text names.
    fn parse(text: &str) -> Option<Self>
        ensures { FindsOne result (IsNamed text.now) };
}

impl Named for PresetNumbers {
    ghost IsNamed = { IsPreset };

    fn parse(text: &str) -> Option<PresetNumbers> {
        parse_preset(text)
    }
}

impl Named for TakenPreset {
    ghost IsNamed = { IsTakenPreset };

    fn parse(text: &str) -> Option<TakenPreset> {
        parse_taken(text)
    }
}

/// Returns what the values of the option name, of which there is one or more.
pub(crate) fn read_values<T: Named>(
    alloc: Global,
    matches: &ArgMatches<'_>,
    name: &str,
) -> Result<Option<Vec<T>>, AllocError>
    ensures { IfOk result (λ found. FindsOne found
        (λ values. AreValues T.IsNamed (rows_in matches.now) name.now values.items)) }
{
    let Some(texts) = matches.get_strs(name) else {
        return Ok(None);
    };
    if texts.is_empty() {
        return Ok(None);
    }
    parse_all(alloc, texts)
}

/// Returns the preset that the option names, if it is used.
pub(crate) fn read_optional_preset(
    matches: &ArgMatches<'_>,
    name: &str,
) -> Option<Option<PresetNumbers>>
    ensures { FindsOne result (λ preset. IsGiven (rows_in matches.now) (optional_preset name.now preset)) }
{
    match read_word(matches, name) {
        Some(text) => Some(Some(parse_preset(text)?)),
        None => Some(None),
    }
}

// Returns what the texts name.
fn parse_all<T: Named>(alloc: Global, texts: &[&str]) -> Result<Option<Vec<T>>, AllocError>
    ensures { IfOk result (λ found. FindsOne found
        (λ values. AllZip T.IsNamed (map (λ text. text.now) texts.now) values.items)) }
{
    let mut values = Vec::new(alloc);
    for text in texts {
        let Some(value) = T::parse(text) else {
            return Ok(None);
        };
        values.push(value)?;
    }
    Ok(Some(values))
}

// Returns the preset to copy of BANK:NUMBER or FROM=TO.
fn parse_taken(text: &str) -> Option<TakenPreset>
    ensures { FindsOne result (IsTakenPreset text.now) }
{
    match text.split_once('=') {
        Some((from, to)) => Some(TakenPreset {
            from: parse_preset(from)?,
            to: parse_preset(to)?,
        }),
        None => {
            let preset = parse_preset(text)?;
            Some(TakenPreset {
                from: preset,
                to: preset,
            })
        }
    }
}

/// Returns the preset of BANK:NUMBER.
pub(crate) fn parse_preset(text: &str) -> Option<PresetNumbers>
    ensures { FindsOne result (IsPreset text.now) }
{
    let (bank, number) = text.split_once(':')?;
    Some(PresetNumbers {
        bank: parse_decimal(bank)?,
        number: parse_decimal(number)?,
    })
}

fn parse_decimal(text: &str) -> Option<u16>
    ensures { FindsOne result (IsDecimal 16 text.now) }
{
    text.parse().ok()
}
