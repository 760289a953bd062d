//! Values that a fixed number of bytes hold.
ghost use Rattle.std.specs.Prelude.{◌≡◌, ℕ, ◌+◌, ◌≤◌, List, length};
ghost use Rattle.wire.specs.Octets.{two_at, four_at, two, four};

/// A value that stands in N bytes.
// A slice and a place, and no cursor that reads on: a format's table gives the offset of each field, and a reader finds it here.
pub trait FixedWidth<const N: usize> {
    /// The bytes of a value.
    ghost form: { Self → List ℕ };

    /// The value in the bytes from a place on.
    ghost found: { ℕ → List ℕ → Self };

    /// The value in the bytes from `at` on.
    fn read(bytes: &[u8], at: usize) -> Self
        requires { at + N ≤ length bytes.now }
        ensures { result ≡ found at bytes.now };

    fn to_bytes(&self) -> [u8; N]
        ensures { result ≡ form self.now };
}

// Big-endian numbers.

impl FixedWidth<2> for u16 {
    ghost form = { two };

    ghost found = { two_at };

    #[tactic(auto, unfolding(crate::specs::Octets::two_at))]
    fn read(bytes: &[u8], at: usize) -> u16 {
        u16::from_be_bytes([bytes[at], bytes[at + 1]])
    }

    #[tactic(auto, unfolding(crate::specs::Octets::two))]
    fn to_bytes(&self) -> [u8; 2] {
        u16::to_be_bytes(*self)
    }
}

impl FixedWidth<4> for u32 {
    ghost form = { four };

    ghost found = { four_at };

    #[tactic(auto, unfolding(crate::specs::Octets::four_at))]
    fn read(bytes: &[u8], at: usize) -> u32 {
        u32::from_be_bytes([bytes[at], bytes[at + 1], bytes[at + 2], bytes[at + 3]])
    }

    #[tactic(auto, unfolding(crate::specs::Octets::four))]
    fn to_bytes(&self) -> [u8; 4] {
        u32::to_be_bytes(*self)
    }
}
