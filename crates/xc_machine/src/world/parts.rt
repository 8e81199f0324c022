ghost use Rattle.std.specs.Prelude.{◌≡◌, take, drop};

/// The bytes from a place on, which may lie past the last one.
pub(super) fn behind(bytes: &[u8], at: usize) -> &[u8]
    ensures { result.now ≡ drop at bytes.now }
{
    if at >= bytes.len() {
        return &[];
    }
    &bytes[at..]
}

/// The first `n` bytes, or all where there are fewer.
pub(super) fn front(bytes: &[u8], n: usize) -> &[u8]
    ensures { result.now ≡ take n bytes.now }
{
    if n >= bytes.len() {
        return bytes;
    }
    &bytes[..n]
}
