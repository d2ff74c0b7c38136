//! Files of many records or points.

use crate::files::{empty, tone};
use sf_base::{front_of, part_of, rest_from};
use std::alloc::{AllocError, Global};

/// The file with `piece` inserted `times` times at position `at`, and then these size fields set.
fn with_repeated(
    alloc: Global,
    file: &[u8],
    at: usize,
    piece: &[u8],
    times: usize,
    sizes: &[(usize, usize)],
) -> Result<Vec<u8>, AllocError> {
    let mut longer = Vec::new(alloc);
    longer.extend_from_slice(front_of(file, at))?;
    for _ in 0..times {
        longer.extend_from_slice(piece)?;
    }
    longer.extend_from_slice(rest_from(file, at))?;
    for (place, size) in sizes {
        put_size(&mut longer, *place, *size);
    }
    Ok(longer)
}

fn put_size(file: &mut Vec<u8>, at: usize, size: usize) {
    let size = u32::try_from(size).unwrap_or(0);
    for (byte, value) in file.iter_mut().skip(at).zip(size.to_le_bytes()) {
        *byte = value;
    }
}

/// The empty bank's file with `count` zero records inserted before the terminal of one list. `size` is the position of
/// the list's size field, `record` the length of a record.
pub fn with_zero_records(
    alloc: Global,
    size: usize,
    record: usize,
    count: usize,
) -> Result<Vec<u8>, AllocError> {
    let bytes = record.saturating_mul(count);
    let sizes = [
        (4, bytes.saturating_add(300)),
        (86, bytes.saturating_add(218)),
        (size, bytes.saturating_add(record)),
    ];
    let zeros = front_of(&[0; 46], record);
    with_repeated(
        alloc,
        empty().bytes(),
        size.saturating_add(4),
        zeros,
        count,
        &sizes,
    )
}

/// T with `samples` copies of its sample header, all of the same 49,954 points, and this target of its preset.
pub fn many_points(alloc: Global, samples: usize, target: u8) -> Result<Vec<u8>, AllocError> {
    let more = samples.saturating_mul(46);
    let long = tone().patched(&[(320, target), (464, 0x22), (465, 0xc3)]);
    let sample = part_of(long.bytes(), 440, 46);
    let without = long.edited("440 46");
    let heads = with_repeated(alloc, without.bytes(), 440, sample, samples, &[])?;
    let sizes = [
        (4, more.saturating_add(100_288)),
        (66, 99_920),
        (78, 99_908),
        (99_994, more.saturating_add(298)),
        (100_246, more.saturating_add(46)),
    ];
    with_repeated(alloc, &heads, 82, &[0; 30], 3_327, &sizes)
}
