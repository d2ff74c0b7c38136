//! The raw changes of the samples of a bank.
ghost use Rattle.std.specs.Prelude.{◌≡◌, ◌<◌, ◌≤◌, Some, length, slice_get, IfSome, OnOk, OnErr, IfErr};
ghost use Rattle.bank_parts.specs.Valid.{IsValid};
ghost use Rattle.bank_changes.specs.Samples.{sample_renamed, sample_added, sample_removed, sample_moved};

use bank_parts::{Parts, Sample};
use base_numbered_lists::{Renumber, Renumbering};
use sf_base::Name20;

/// Renames a sample and returns the old name. Allocates nothing.
pub fn rename_sample(parts: &mut Parts<'_>, number: u32, name: Name20) -> Name20
    requires { number < length parts.old.samples }
    ensures value { IfSome (slice_get parts.old.samples number) (λ sample. result ≡ sample.name) }
    ensures change { parts.new ≡ sample_renamed parts.old number name }
{
    let sample = parts.samples.member_mut(number as usize);
    std::mem::replace(&mut sample.name, name)
}

/// Inserts a sample as number `number`; later samples move up by one, and targets and links follow. Its own link is a
/// number after the insertion. An append renumbers nothing and does not traverse the bank. If an allocation fails,
/// the bank is unchanged and the sample is returned.
pub fn add_sample<'a>(
    parts: &mut Parts<'a>,
    number: u32,
    sample: Sample<'a>,
) -> Result<(), Sample<'a>>
    requires valid { IsValid parts.old }
    requires place { number ≤ length parts.old.samples }
    ensures ok { OnOk result (parts.new ≡ sample_added parts.old number sample.entry) }
    ensures err { OnErr result (parts.new ≡ parts.old) }
    ensures value_returned { IfErr result (λ back. back ≡ sample.entry) }
{
    if number as usize == parts.samples.len() {
        return parts.samples.push(sample);
    }
    let by = Renumbering::Insertion { at: number };
    parts
        .samples
        .insert_renumbered(by, number as usize, sample)?;
    parts.instruments.renumber(by);
    Ok(())
}

/// Removes a sample and returns it; later samples move down by one, and targets and links follow. If it is the last,
/// nothing is renumbered and the bank is not traversed. Allocates nothing.
pub fn remove_sample<'a>(parts: &mut Parts<'a>, number: u32) -> Sample<'a>
    requires valid { IsValid parts.old }
    requires there { number < length parts.old.samples }
    ensures value { slice_get parts.old.samples number ≡ Some result }
    ensures change { parts.new ≡ sample_removed parts.old number }
{
    let sample = parts.samples.remove(number as usize);
    if (number as usize) < parts.samples.len() {
        let by = Renumbering::Removal { at: number };
        parts.samples.renumber(by);
        parts.instruments.renumber(by);
    }
    sample
}

/// Moves sample `from` to number `to`; the others keep their order, and targets and links follow. Allocates nothing.
pub fn move_sample(parts: &mut Parts<'_>, from: u32, to: u32)
    requires valid { IsValid parts.old }
    requires there { from < length parts.old.samples }
    requires place { to < length parts.old.samples }
    ensures { parts.new ≡ sample_moved parts.old from to }
{
    let by = Renumbering::Move { from, to };
    parts.samples.move_member(from as usize, to as usize);
    parts.samples.renumber(by);
    parts.instruments.renumber(by);
}
