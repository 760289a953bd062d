//! Element_ID and Time_Zone.
ghost use Rattle.std.specs.Prelude.{◌≡◌};
ghost use Rattle.fields.specs.Texts.{spaced, zone};

use crate::clock::Clock;
use crate::digits::is_digits;

// Two types of eight bytes, and no one type with the width as its parameter: each has a form of its own, and the one could be
// taken for the other.

/// The element that sent a message: spaces, then digits, eight bytes in all.
#[derive(Clone, Copy, PartialEq, Eq, PartialOrd, Ord, Debug)]
pub struct ElementId(pub [u8; 8]);

/// A zone: 0 or 1 for daylight saving, a sign, then hhmmss.
#[derive(Clone, Copy, PartialEq, Eq, PartialOrd, Ord, Debug)]
pub struct TimeZone(pub [u8; 8]);

impl ElementId {
    pub fn is_well_formed(&self) -> bool
        ensures { result ≡ spaced self.now.0 }
    {
        is_spaced(&self.0)
    }
}

impl TimeZone {
    #[tactic(auto, unfolding(crate::specs::Texts::zone))]
    pub fn is_well_formed(&self) -> bool
        ensures { result ≡ zone self.now.0 }
    {
        matches!(self.0[0], b'0' | b'1')
            && matches!(self.0[1], b'+' | b'-')
            && is_digits(&self.0[2..8])
            && Clock::read(&self.0, 2).is_real()
    }
}

// Whether some bytes are spaces, then one or more digits.
fn is_spaced(bytes: &[u8]) -> bool
    ensures { result ≡ spaced bytes.now }
{
    match bytes.iter().position(|b| *b != b' ') {
        Some(start) => is_digits(&bytes[start..]),
        None => false,
    }
}
