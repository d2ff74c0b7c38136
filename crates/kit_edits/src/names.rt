//! Names of recordings, kept distinct within a kit.
ghost use Rattle.std.specs.Prelude.{◌≡◌, ◌≤◌, ◌<◌, length};
ghost use Rattle.sf_base.specs.declared.limits.TheConstants.{NAME_LENGTH};
ghost use Rattle.kit_edits.specs.Names.{has_name, own_length, candidate, free_name};

use crate::joining::joined;
use crate::used_names::UsedNames;
use bank_format::before_zero;
use itoa::Buffer;
use sf_base::limits::NAME_LENGTH;
use sf_base::{Name20, front_of};

/// The most bytes of a stereo recording's name, before ` L` or ` R`.
const OWN_LENGTH: usize = 18;

/// How many candidates there are for a name.
const CANDIDATES: u32 = 99_999;

/// The name for a recording: the first candidate that gives its samples names that are not in use, or the first of all
/// if there is none.
pub(crate) fn free_name(used: &UsedNames, stem: &[u8], is_stereo: bool) -> Name20
    ensures value { result ≡ free_name (has_name used.now) is_stereo stem.now }
    ensures short { length result ≤ own_length is_stereo }
{
    let most = own_length(is_stereo);
    for i in 0..CANDIDATES {
        let name = candidate(stem, most, i + 1);
        if used.is_free(name, is_stereo) {
            return name;
        }
    }
    candidate(stem, most, 1)
}

fn own_length(is_stereo: bool) -> usize
    ensures { result ≡ own_length is_stereo }
{
    if is_stereo { OWN_LENGTH } else { NAME_LENGTH }
}

// Candidate `k`, of at most `most` bytes.
fn candidate(stem: &[u8], most: usize, k: u32) -> Name20
    requires room { OWN_LENGTH ≤ most }
    requires fits { most ≤ NAME_LENGTH }
    requires counted { 0 < k }
    requires few { k ≤ CANDIDATES }
    ensures value { result ≡ candidate most stem.now k }
    ensures short { length result ≤ most }
{
    if k == 1 {
        return joined(before_zero(front_of(stem, most)), b"");
    }
    let mut buffer = Buffer::new();
    let digits = buffer.format(k).as_bytes();
    let own = before_zero(front_of(stem, most - 1 - digits.len()));
    let marked = joined(own, b"~");
    joined(marked.bytes(), digits)
}
