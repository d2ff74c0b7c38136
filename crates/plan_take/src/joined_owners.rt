//! Whether presets or instruments are those of one bank, followed by those of another.
ghost use Rattle.std.specs.Prelude.{◌≡◌, ◌<◌, ◌+◌, ◌++◌, ℕ, length, map, true, Some, slice_get};
ghost use Rattle.std.specs.Option.{option_map};
ghost use Rattle.bank_parts.specs.Owners.{head_at};
ghost use Rattle.plan_take.specs.Matches.{AreBoth, HasNumber, Renumbered};
ghost use Rattle.plan_take.specs.Shifted.{bank_shifted, targets_shifted, preset_shifted};

use crate::zone_matches::is_renumbered;
use bank_core::{Head, Owners};
use bank_equality::{SameHead, same_owner};
use bank_parts::OwnerHead;
use sf_base::Name20;

/// Whether all instruments are the first ones, followed by the added ones with their targets increased, given the
/// numbers that targets have.
pub(crate) fn are_joined_instruments(
    all: &Owners<Name20>,
    first: &Owners<Name20>,
    added: &Owners<Name20>,
    by: usize,
    targets: &[Option<u16>],
) -> bool
    ensures { result ≡ true → all.now ≡ first.now ++ map (targets_shifted by) added.now }
{
    let count = first.len();
    if !begins_with(all, first, added) || !are_counted(targets, by) {
        return false;
    }
    have_added_zones(all, count, added, targets) && have_added_names(all, count, added)
}

/// The same for presets, with their bank numbers increased.
pub(crate) fn are_joined_presets(
    all: &Owners<Head>,
    first: &Owners<Head>,
    added: &Owners<Head>,
    shift: u16,
    by: usize,
    targets: &[Option<u16>],
) -> bool
    ensures { result ≡ true → all.now ≡ first.now ++ map (preset_shifted shift by) added.now }
{
    let count = first.len();
    if !begins_with(all, first, added) || !are_counted(targets, by) {
        return false;
    }
    have_added_zones(all, count, added, targets) && have_added_heads(all, count, added, shift)
}

// Whether the list begins with all members of another, and has as many more as a third.
fn begins_with<H: SameHead>(all: &Owners<H>, first: &Owners<H>, added: &Owners<H>) -> bool
    ensures count { result ≡ true → length all.now ≡ length first.now + length added.now }
    ensures first { result ≡ true → (i : ℕ) → i < length first.now → slice_get all.now i ≡ slice_get first.now i }
{
    if first.len().checked_add(added.len()) != Some(all.len()) {
        return false;
    }
    for i in 0..first.len() {
        if !same_owner(all, i, first, i) {
            return false;
        }
    }
    true
}

// Whether each of the added owners has the zones, renumbered, of the owner `first` numbers later.
fn have_added_zones<H: OwnerHead>(
    all: &Owners<H>,
    first: usize,
    added: &Owners<H>,
    targets: &[Option<u16>],
) -> bool
    requires { length all.now ≡ first + length added.now }
    ensures { result ≡ true → (i : ℕ) → i < length added.now → AreBoth (Renumbered targets.now) (slice_get added.now i) (slice_get all.now (first + i)) }
{
    let _count = all.len();
    for i in 0..added.len() {
        if !is_renumbered(added, i, all, first + i, targets) {
            return false;
        }
    }
    true
}

// Whether each of the added instruments has the name of the instrument `first` numbers later.
fn have_added_names(all: &Owners<Name20>, first: usize, added: &Owners<Name20>) -> bool
    requires { length all.now ≡ first + length added.now }
    ensures { result ≡ true → (i : ℕ) → i < length added.now → head_at all.now (first + i) ≡ head_at added.now i }
{
    let _count = all.len();
    for i in 0..added.len() {
        if !all.head(first + i).is_same(added.head(i)) {
            return false;
        }
    }
    true
}

// Whether each of the added presets has the head of the preset `first` numbers later, but for the increased bank number.
fn have_added_heads(all: &Owners<Head>, first: usize, added: &Owners<Head>, shift: u16) -> bool
    requires { length all.now ≡ first + length added.now }
    ensures { result ≡ true → (i : ℕ) → i < length added.now → head_at all.now (first + i) ≡ option_map (bank_shifted shift) (head_at added.now i) }
{
    let _count = all.len();
    for i in 0..added.len() {
        if !is_shifted_head(all.head(first + i), added.head(i), shift) {
            return false;
        }
    }
    true
}

fn is_shifted_head(head: &Head, other: &Head, shift: u16) -> bool
    ensures { result ≡ true → head.now ≡ bank_shifted shift other.now }
{
    match other.bank.checked_add(shift) {
        Some(bank) => head.is_same(&Head { bank, ..*other }),
        None => false,
    }
}

// Whether each member has a number: the one `first` numbers later.
fn are_counted(numbers: &[Option<u16>], first: usize) -> bool
    ensures { result ≡ true → (i j : ℕ) → HasNumber numbers.now i j → j ≡ first + i }
{
    for i in 0..numbers.len() {
        if !is_counted(numbers[i], first, i) {
            return false;
        }
    }
    true
}

fn is_counted(number: Option<u16>, first: usize, i: usize) -> bool
    ensures { result ≡ true → (j : ℕ) → number ≡ Some j → j ≡ first + i }
{
    match number {
        Some(number) => first.checked_add(i) == Some(number.into()),
        None => true,
    }
}
