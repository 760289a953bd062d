//! Bytes of known number: parts of slices, buffers, and values of a fixed width.
#![tactic(auto)]

mod buffer;
mod fixed_width;

ghost use Rattle.std.specs.Prelude.{◌≡◌, ◌+◌, ◌≤◌, length, take, drop};

pub use buffer::Buffer;
pub use fixed_width::FixedWidth;

/// The N bytes from `at` on. A slice and a place, for the reason that `FixedWidth` gives.
pub fn part<const N: usize>(bytes: &[u8], at: usize) -> [u8; N]
    requires { at + N ≤ length bytes.now }
    ensures len { length result ≡ N }
    ensures bytes { result ≡ take N (drop at bytes.now) }
{
    match bytes[at..].split_first_chunk::<N>() {
        Some((front, _)) => *front,
        None => unreachable(),
    }
}

/// All of the bytes, of which there are N.
pub fn whole<const N: usize>(bytes: &[u8]) -> [u8; N]
    requires { length bytes.now ≡ N }
    ensures { result ≡ bytes.now }
{
    part(bytes, 0)
}
