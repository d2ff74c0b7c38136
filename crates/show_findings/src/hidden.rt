//! Presets that an earlier preset hides.
ghost use Rattle.std.specs.Prelude.{◌≡◌, ◌==◌, ◌<◌, ◌^◌, ◌+◌, ◌*◌, ◌++◌, ℕ, cond, length, map, Some, None, OnOk, IfOk};
ghost use Rattle.std.specs.List.{filter_map};
ghost use Rattle.std.specs.Option.{option_or, option_map};
ghost use Rattle.std.specs.Ordering.{nat_cmp};
ghost use Rattle.std.specs.BTreeMap.{get};
ghost use Rattle.show_findings.specs.declared.finding.Finding.TheVariants.{HiddenPreset};
ghost use Rattle.bank_changes.specs.Members.{head_of};
ghost use Rattle.show_findings.specs.Numbers.{numbers};
ghost use Rattle.show_findings.specs.Presets.{key_of, keys_in, repeated, hidden_presets};

use crate::finding::Finding;
use crate::gathering::{count_in, push_option};
use bank_core::{Bank, List};
use sf_base::OutOfMemory;
use std::alloc::Global;
use std::collections::BTreeMap;

/// Appends the hidden presets.
pub(crate) fn push_hidden_presets(
    alloc: Global,
    bank: &Bank<'_>,
    found: &mut Vec<Finding>,
) -> Result<(), OutOfMemory>
    ensures { OnOk result (found.new.items ≡ found.old.items ++ hidden_presets bank.now) }
{
    bank.soundness();
    let keys = keys_of(alloc, bank)?;
    push_repeated(alloc, keys.as_slice(), found)
}

// The bank and preset numbers of all presets.
fn keys_of(alloc: Global, bank: &Bank<'_>) -> Result<Vec<u32>, OutOfMemory>
    ensures keys { IfOk result (λ keys. keys.items ≡ keys_in bank.now) }
    ensures few { IfOk result (λ keys. length keys.items < 2 ^ 32) }
{
    let mut keys = Vec::new(alloc);
    for preset in 0..count_in(bank, List::Presets) {
        push_option(&mut keys, key_at(bank, preset))?;
    }
    Ok(keys)
}

fn key_at(bank: &Bank<'_>, preset: u32) -> Option<u32>
    ensures { result ≡ option_map key_of (head_of bank.now preset) }
{
    let head = bank.head(preset)?;
    Some(joined(head.bank, head.number))
}

// The bank and the preset number as one number.
fn joined(bank: u16, number: u16) -> u32
    ensures { result ≡ 65536 * bank + number }
{
    65_536 * u32::from(bank) + u32::from(number)
}

// Appends the presets of these keys that have the key of an earlier one.
fn push_repeated(alloc: Global, keys: &[u32], found: &mut Vec<Finding>) -> Result<(), OutOfMemory>
    requires { length keys.now < 2 ^ 32 }
    ensures { OnOk result (found.new.items ≡ found.old.items ++ filter_map (repeated keys.now) (numbers (length keys.now))) }
{
    let mut firsts: BTreeMap<u32, u32> = BTreeMap::new(alloc);
    for index in 0..keys.len() {
        let number = index as u32;
        let first = earlier(&mut firsts, keys[index], number)?;
        push_option(found, hidden_preset(number, first))?;
    }
    Ok(())
}

fn hidden_preset(preset: u32, first: Option<u32>) -> Option<Finding>
    ensures { result ≡ option_map (λ (q : ℕ). HiddenPreset preset q) first }
{
    Some(Finding::HiddenPreset { preset, by: first? })
}

// The value of a key; if it has none, it gets this one.
fn earlier(
    firsts: &mut BTreeMap<u32, u32>,
    key: u32,
    number: u32,
) -> Result<Option<u32>, OutOfMemory>
    ensures value { IfOk result (λ first. first ≡ get nat_cmp firsts.old key) }
    ensures first { OnOk result ((q : ℕ) → get nat_cmp firsts.new q ≡ option_or (get nat_cmp firsts.old q) (cond (key == q) (Some number) None)) }
{
    if let Some(first) = firsts.get(&key) {
        return Ok(Some(*first));
    }
    firsts.insert(key, number)?;
    Ok(None)
}
