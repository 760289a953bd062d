//! What is carried from block to block.
ghost use Rattle.std.specs.Prelude.{◌≡◌};
ghost use Rattle.digest.specs.Md5.{start, written};

use wire::Buffer;

/// The words A, B, C and D of RFC 1321.
#[derive(Clone, Copy)]
pub struct State {
    pub a: u32,
    pub b: u32,
    pub c: u32,
    pub d: u32,
}

impl State {
    /// The state before the first block.
    pub fn first() -> State
        ensures { result ≡ start }
    {
        State {
            a: 0x67452301,
            b: 0xefcdab89,
            c: 0x98badcfe,
            d: 0x10325476,
        }
    }

    /// The four words in bytes, the low-order byte of each first.
    pub fn to_bytes(self) -> [u8; 16]
        ensures { result ≡ written self }
    {
        let mut bytes = Buffer::new();
        for word in [self.a, self.b, self.c, self.d] {
            bytes.push(&word.to_le_bytes());
        }
        bytes.into_array()
    }
}
