//! A place in some bytes, where a reader goes on.
ghost use Rattle.std.specs.Prelude.{◌≡◌, ◌≤◌, min, length, drop};

/// The place never lies beyond the bytes.
#[derive(Clone, Copy)]
pub struct Cursor<'a> {
    pub(crate) bytes: &'a [u8],
    pub(crate) place: usize,
    ghost within: { place ≤ length bytes.now },
}

impl<'a> Cursor<'a> {
    /// A place in the bytes, or their end if that comes before it.
    pub(crate) fn at(bytes: &'a [u8], place: usize) -> Cursor<'a>
        ensures bytes { result.bytes.now ≡ bytes.now }
        ensures place { result.place ≡ min (length bytes.now) place }
    {
        Cursor {
            bytes,
            place: bytes.len().min(place),
        }
    }

    /// What is left of the bytes.
    pub(crate) fn rest(self) -> &'a [u8]
        ensures { result.now ≡ drop self.entry.place self.entry.bytes.now }
    {
        &self.bytes[self.place..]
    }
}
