//! Memory of a fixed size, and the bytes that were laid down in it.
ghost use Rattle.std.specs.Prelude.{◌≡◌, ℕ, ◌+◌, ◌-◌, ◌≤◌, List, [], ◌++◌, length, take, replicate};
ghost use Rattle.wire.specs.Filled.{Filled, counted, refilled};

use std::marker::Model;

/// At most N bytes, one after another. Contracts see their list; the memory behind them is kept zero, so that two of them
/// are equal exactly when their bytes are.
// Its own array and length: no heap is allowed here, and the kit's `ArrayVec` is no `Copy`, as a buffer is. A form and a name, which
// go by value, hold no buffer, for the reason that stands beside them.
#[derive(Clone, Copy, PartialEq, Eq, Debug)]
pub struct Buffer<const N: usize> {
    bytes: [u8; N],
    len: usize,
}

impl<const N: usize> Model for Buffer<N> {
    ghost Value = { List ℕ };

    ghost view = { λ b. take b.len b.bytes };

    ghost invariant = { λ b. Filled N b.len b.bytes };

    ghost inverse = { λ v. record { bytes = v ++ replicate (N - length v) 0; len = length v } };

    ghost inverse_ok = { λ b h i. record { bytes = refilled N b.len b.bytes h i; len = counted N b.len b.bytes h i } };
}

impl<const N: usize> Buffer<N> {
    pub fn new() -> Buffer<N>
        ensures { result ≡ [] }
    {
        Buffer {
            bytes: [0; N],
            len: 0,
        }
    }

    /// Lays `more` down behind what is there.
    pub fn push(&mut self, more: &[u8])
        requires { length self.old + length more.now ≤ N }
        ensures len { length self.new ≡ length self.old + length more.now }
        ensures bytes { self.new ≡ self.old ++ more.now }
    {
        let end = self.len + more.len();
        let bytes = &mut self.bytes[..];
        bytes[self.len..end].copy_from_slice(more);
        self.len = end;
    }

    pub fn as_bytes(&self) -> &[u8]
        ensures value { result.now ≡ self.now }
        ensures short { length self.now ≤ N }
    {
        let bytes = &self.bytes[..];
        &bytes[..self.len]
    }

    /// The memory: the bytes, and zeros behind them.
    pub fn into_memory(self) -> [u8; N]
        ensures filled { Filled N (length self.entry) result }
        ensures bytes { take (length self.entry) result ≡ self.entry }
    {
        self.bytes
    }

    /// The bytes, of which there are N.
    pub fn into_array(self) -> [u8; N]
        requires { length self ≡ N }
        ensures len { length result ≡ N }
        ensures bytes { result ≡ self.entry }
    {
        self.into_memory()
    }
}
