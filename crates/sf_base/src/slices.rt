//! Parts of a slice, clamped to its end.
ghost use Rattle.std.specs.Prelude.{◌≡◌, take, drop};

/// The first `count` bytes, or all if there are fewer.
pub fn front_of(bytes: &[u8], count: usize) -> &[u8]
    ensures { result.now ≡ take count bytes.now }
{
    if bytes.len() < count {
        return bytes;
    }
    &bytes[..count]
}

/// The bytes from offset `at` on; none if the slice is shorter.
pub fn rest_from(bytes: &[u8], at: usize) -> &[u8]
    ensures { result.now ≡ drop at bytes.now }
{
    if bytes.len() < at {
        return &[];
    }
    &bytes[at..]
}

/// The `count` bytes from offset `at` on, or as many of them as there are.
pub fn part_of(bytes: &[u8], at: usize, count: usize) -> &[u8]
    ensures { result.now ≡ take count (drop at bytes.now) }
{
    front_of(rest_from(bytes, at), count)
}
