//! Files that are read whole, by pieces.
ghost use Rattle.std.specs.Prelude.{◌≡◌, ◌≢◌, ◌+◌, ◌<◌, ◌≤◌, Ok, Err, IfOk, IfErr, OnOk, vec_len, length, take, drop};
ghost use Rattle.file_host.specs.World.{Gives};
ghost use Rattle.file_host.specs.Saving.{ReadFails};
ghost use Rattle.file_disk.specs.Inputs.{most_read, GivesAll, FailsAs, ReadsOn, ReadsPiece, IsAllRead, StopsReading};

use crate::device::Device;
use file_host::InputFault;
use sf_base::Failure;
use sf_base::limits::FILE_LENGTH;
use std::alloc::{AllocError, Global};

/// The bytes requested of a file in one read.
const PIECE: usize = 262_144;

/// The most bytes that are read of a file: one more than the limit, to detect that it is too long.
const MOST: usize = FILE_LENGTH as usize + 1;

/// Reads a whole file.
pub(crate) fn read_file<D: Device>(
    alloc: Global,
    device: &mut D,
    path: &str,
) -> Result<Vec<u8>, Failure<InputFault>>
    ensures bytes { IfOk result (λ bytes. Gives (D.world device.old) path.now (Ok bytes.items)) }
    ensures fault { IfErr result (ReadFails (D.world device.old) path.now) }
    ensures stays { D.world device.new ≡ D.world device.old }
{
    match device.open_input(path) {
        Ok(expected) => read_whole(alloc, device, expected),
        Err(failure) => Err(failure),
    }
}

// Reads to the end of the open file, its fault, or one byte past the limit. Capacity for `expected` bytes and one more is
// allocated first, so a file of that length needs no reallocation.
fn read_whole<D: Device>(
    alloc: Global,
    device: &mut D,
    expected: u64,
) -> Result<Vec<u8>, Failure<InputFault>>
    ensures bytes { IfOk result (λ bytes. GivesAll (D.unread device.old) (Ok bytes.items)) }
    ensures fault { IfErr result (FailsAs (D.unread device.old)) }
    ensures stays { D.world device.new ≡ D.world device.old }
{
    let first = expected.min(FILE_LENGTH) as usize + 1;
    let mut bytes = Vec::with_capacity(alloc, first)?;
    while bytes.len() < MOST {
        match read_piece(device, &mut bytes) {
            Ok(0) => return Ok(bytes),
            Ok(_) => {}
            Err(failure) => return Err(failure),
        }
    }
    Err(Failure::Fault(InputFault::TooLong))
}

// Appends the next bytes of the open file, and returns how many.
fn read_piece<D: Device>(device: &mut D, bytes: &mut Vec<u8>) -> Result<usize, Failure<InputFault>>
    requires { vec_len bytes.old < most_read }
    ensures within { OnOk result (vec_len bytes.new ≤ most_read) }
    ensures reads { IfOk result (ReadsPiece (D.unread device.old) (D.unread device.new) bytes.old.items bytes.new.items) }
    ensures failed { IfErr result (StopsReading (D.unread device.old)) }
    ensures stays { D.world device.new ≡ D.world device.old }
{
    let at = bytes.len();
    add_room(bytes, PIECE.min(MOST - at))?;
    let count = read_at(device, bytes.as_mut_slice(), at)?;
    bytes.truncate(at + count);
    Ok(count)
}

// Extends the bytes by zeros, at least one and at most `most`, for the next read. Allocates only if there is no spare
// capacity.
fn add_room(bytes: &mut Vec<u8>, most: usize) -> Result<(), AllocError>
    requires positive { 0 < most }
    requires bounded { vec_len bytes.old + most ≤ most_read }
    ensures prefix_kept { OnOk result (take (vec_len bytes.old) bytes.new.items ≡ bytes.old.items) }
    ensures room { OnOk result (vec_len bytes.old < vec_len bytes.new) }
    ensures within { OnOk result (vec_len bytes.new ≤ vec_len bytes.old + most) }
{
    let at = bytes.len();
    if bytes.capacity() == at {
        bytes.reserve(most)?;
    }
    let room = most.min(bytes.capacity() - at);
    bytes.resize(at + room, 0)
}

// Reads once, into the buffer from `at` on.
fn read_at<D: Device>(
    device: &mut D,
    buffer: &mut [u8],
    at: usize,
) -> Result<usize, Failure<InputFault>>
    requires { at < length buffer.old }
    ensures prefix_kept { take at buffer.new ≡ take at buffer.old }
    ensures len { length buffer.new ≡ length buffer.old }
    ensures within { IfOk result (λ n. at + n ≤ length buffer.new) }
    ensures reads { IfOk result (λ n. ReadsOn (D.unread device.old) (D.unread device.new) (take n (drop at buffer.new))) }
    ensures end { IfOk result (λ n. n ≡ 0 → IsAllRead (D.unread device.old)) }
    ensures failed { IfErr result (StopsReading (D.unread device.old)) }
    ensures stays { D.world device.new ≡ D.world device.old }
{
    device.read_input(&mut buffer[at..])
}
