//! Parts of octets that may be shorter than they are to be.
ghost use Rattle.std.specs.Prelude.{◌≡◌, take, drop};

/// The octets that are there, of so many.
pub(crate) fn front(octets: &[u8], count: usize) -> &[u8]
    ensures { result.now ≡ take count octets.now }
{
    match octets.get(..count) {
        Some(front) => front,
        None => octets,
    }
}

/// The octets behind so many.
pub(crate) fn behind(octets: &[u8], count: usize) -> &[u8]
    ensures { result.now ≡ drop count octets.now }
{
    match octets.get(count..) {
        Some(rest) => rest,
        None => &[],
    }
}
