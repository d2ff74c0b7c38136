//! Finds members of a list by hash keys.
use sf_base::OutOfMemory;
use std::alloc::Global;

/// The members of a list, sorted by their keys.
#[derive(Drop)]
pub(crate) struct MemberIndex {
    members: Vec<KeyedMember>,
}

#[derive(Clone, Copy, PartialEq, Eq, PartialOrd, Ord)]
struct KeyedMember {
    key: u64,
    number: usize,
}

impl MemberIndex {
    /// The members of a list with these keys.
    pub(crate) fn new(alloc: Global, keys: &[u64]) -> Result<MemberIndex, OutOfMemory> {
        let mut members = Vec::with_capacity(alloc, keys.len())?;
        for (number, &key) in keys.iter().enumerate() {
            members.push(KeyedMember { key, number })?;
        }
        members.as_mut_slice().sort_unstable();
        Ok(MemberIndex { members })
    }

    /// The first member with this key.
    pub(crate) fn first(&self, key: u64) -> Option<usize> {
        let members = self.members.as_slice();
        let member = members.get(members.partition_point(|other| other.key < key))?;
        if member.key == key {
            return Some(member.number);
        }
        None
    }
}
