//! The names that samples of a kit have already.
ghost use Rattle.std.specs.Prelude.{◌≡◌, ◌≤◌, ℕ, List, false, length, OnOk};
ghost use Rattle.kit_edits.specs.Names.{has_name, AddsName, AddsNames, is_free, own_length, sample_names};

use crate::joining::side_name;
use sf_base::{Name20, OutOfMemory};
use std::alloc::Global;
use std::collections::HashSet;

/// The suffixes of the names of a left and a right sample.
const LEFT: &[u8; 2] = b" L";

const RIGHT: &[u8; 2] = b" R";

/// A set of names, each as the 20 bytes of its field.
#[derive(Drop)]
pub(crate) struct UsedNames {
    pub(crate) fields: HashSet<[u8; 20]>,
}

impl UsedNames {
    /// A set without names.
    pub(crate) fn new(alloc: Global) -> UsedNames
        ensures { (name : List ℕ) → has_name result name ≡ false }
    {
        UsedNames {
            fields: HashSet::new(alloc),
        }
    }

    /// Whether the samples of a recording with this name would have names that are not in the set.
    pub(crate) fn is_free(&self, name: Name20, is_stereo: bool) -> bool
        requires { length name ≤ own_length is_stereo }
        ensures { result ≡ is_free (has_name self.now) is_stereo name }
    {
        if is_stereo {
            !self.has(side_name(name, LEFT)) && !self.has(side_name(name, RIGHT))
        } else {
            !self.has(name)
        }
    }

    /// Adds the names of the samples of a recording with this name.
    pub(crate) fn add_all(&mut self, name: Name20, is_stereo: bool) -> Result<(), OutOfMemory>
        requires { length name ≤ own_length is_stereo }
        ensures { OnOk result (AddsNames self.old self.new (sample_names is_stereo name)) }
    {
        if is_stereo {
            self.add(side_name(name, LEFT))?;
            self.add(side_name(name, RIGHT))
        } else {
            self.add(name)
        }
    }

    fn has(&self, name: Name20) -> bool
        ensures { result ≡ has_name self.now name }
    {
        self.fields.contains(&name.filled())
    }

    fn add(&mut self, name: Name20) -> Result<(), OutOfMemory>
        ensures { OnOk result (AddsName self.old self.new name) }
    {
        self.fields.insert(name.filled())?;
        Ok(())
    }
}
