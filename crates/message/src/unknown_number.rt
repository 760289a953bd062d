//! What a conversion from a number answers where it finds nothing.

/// Nothing has this number.
#[derive(Clone, Copy, PartialEq, Eq, Debug)]
pub struct UnknownNumber;
