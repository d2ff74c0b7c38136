//! Tables of consecutive records.
ghost use Rattle.std.specs.Prelude.{◌≡◌, ◌≢◌, ◌↔◌, ◌<◌, ◌%◌, ℕ, List, [], length, slice_get, IsTrue, MatchOption};
ghost use Rattle.std.specs.List.{slice_range};
ghost use Rattle.std.specs.Iterator.{YieldsFirst, item_count};
ghost use Rattle.hydra_records.specs.Records.{records};

use sf_base::{front_of, part_of, rest_from};
use std::marker::{Model, PhantomData};

/// A record type with a fixed number of bytes.
pub trait Record: Sized {
    /// The number of bytes.
    ghost SIZE: { ℕ };

    /// The record in the bytes.
    ghost of_bytes: { List ℕ → Self };

    /// The number of bytes.
    const SIZE: usize;

    /// Reads the record from `SIZE` bytes.
    fn read(bytes: &[u8]) -> Self
        requires { length bytes.now ≡ SIZE }
        ensures { result ≡ of_bytes bytes.now };

    ghost some_bytes: { 0 < SIZE };
}

/// A record that can be encoded in `N` bytes.
pub trait Encoded<const N: usize> {
    /// The bytes of the record.
    ghost bytes_of: { Self → List ℕ };

    /// Returns the bytes of the record.
    fn put(&self) -> [u8; N]
        ensures { result ≡ bytes_of self.now };
}

/// A list of consecutive records, borrowed from the file's bytes. Nothing is copied, and each call takes constant time.
#[derive(Drop)]
pub struct Table<'a, R: Record> {
    bytes: &'a [u8],
    kind: PhantomData<R>,
}

impl<'a, R: Record> Model for Table<'a, R> {
    ghost use Rattle.std.specs.Prelude.{◌≡◌, ◌%◌, List, length};
    ghost use Rattle.hydra_records.specs.Records.{records};

    ghost Value = { List R };

    ghost view = { λ table. records R.SIZE R.of_bytes table.bytes.now };

    ghost invariant = { λ table. length table.bytes.now % R.SIZE ≡ 0 };
}

impl<'a, R: Record> Table<'a, R> {
    /// The table in the bytes, or `None` if they aren't whole records.
    pub fn over(bytes: &'a [u8]) -> Option<Table<'a, R>>
        ensures { MatchOption result (length bytes.now % R.SIZE ≢ 0)
            (λ table. (length bytes.now % R.SIZE ≡ 0) × (table ≡ records R.SIZE R.of_bytes bytes.now)) }
    {
        if bytes.len() % R::SIZE != 0 {
            return None;
        }
        Some(Table {
            bytes,
            kind: PhantomData,
        })
    }

    /// The number of records.
    pub fn len(&self) -> usize
        ensures { result ≡ length self.now }
    {
        self.bytes.len() / R::SIZE
    }

    /// Whether there are no records.
    pub fn is_empty(&self) -> bool
        ensures { IsTrue result ↔ (self.now ≡ []) }
    {
        self.len() == 0
    }

    /// Record `i`, or `None` past the end.
    pub fn get(&self, i: usize) -> Option<R>
        ensures { result ≡ slice_get self.now i }
    {
        if i < self.len() {
            Some(R::read(part_of(self.bytes, i * R::SIZE, R::SIZE)))
        } else {
            None
        }
    }

    /// The records from index `from` up to, but not including, `to`, clamped to the table.
    pub fn part(&self, from: usize, to: usize) -> Table<'a, R>
        ensures { result ≡ slice_range self.now from to }
    {
        let end = to.min(self.len());
        let start = from.min(end);
        Table {
            bytes: part_of(self.bytes, start * R::SIZE, (end - start) * R::SIZE),
            kind: PhantomData,
        }
    }

    /// An iterator over the records in order.
    pub fn iter(&self) -> Records<'a, R>
        ensures { result ≡ self.now }
    {
        Records {
            rest: self.bytes,
            kind: PhantomData,
        }
    }
}

/// An iterator over the records of a table. Its value is the list of the remaining records.
#[derive(Drop)]
pub struct Records<'a, R: Record> {
    rest: &'a [u8],
    kind: PhantomData<R>,
}

impl<'a, R: Record> Model for Records<'a, R> {
    ghost use Rattle.std.specs.Prelude.{List};
    ghost use Rattle.hydra_records.specs.Records.{records};

    ghost Value = { List R };

    ghost view = { λ unread. records R.SIZE R.of_bytes unread.rest.now };
}

impl<'a, R: Record> Iterator for Records<'a, R> {
    type Item = R;

    ghost next_gives = { YieldsFirst (λ unread. unread) };

    ghost remaining = { item_count (λ unread. unread) };

    fn next(&mut self) -> Option<R> {
        let rest = self.rest;
        if rest.len() < R::SIZE {
            return None;
        }
        self.rest = rest_from(rest, R::SIZE);
        Some(R::read(front_of(rest, R::SIZE)))
    }
}
