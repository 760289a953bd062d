//! The end of a message, padded to whole blocks: steps 1 and 2 of RFC 1321.
ghost use Rattle.std.specs.Prelude.{◌≡◌, ◌+◌, ◌*◌, ◌%◌, ◌^◌, ◌<◌, ◌≤◌, length};
ghost use Rattle.digest.specs.Words.{low_first};
ghost use Rattle.digest.specs.Padding.{closed};

use wire::Buffer;

const ZEROS: [u8; 64] = [0; 64];

/// Where zeros end that begin at `at`: at the next place that is 56 modulo 64, where eight bytes are left in the block.
fn zeros_end(at: usize) -> usize
    requires { at ≤ 64 }
    ensures after { at ≤ result }
    ensures next { result < at + 64 }
    ensures place { result % 64 ≡ 56 }
{
    if at <= 56 { 56 } else { 120 }
}

/// The length of a message in bits, modulo 2 ^ 64, the low-order byte first.
fn bits(len: usize) -> [u8; 8]
    ensures { result ≡ low_first 8 (len * 8 % 2 ^ 64) }
{
    len.wrapping_mul(8).to_le_bytes()
}

/// The last bytes of a message of `len` bytes, with the padding after them: one block, or two where the first has no room
/// for the length.
pub fn pad(rest: &[u8], len: usize) -> Buffer<128>
    requires { length rest.now < 64 }
    ensures { result ≡ closed rest.now len }
{
    let at = rest.len() + 1;
    let mut tail = Buffer::new();
    tail.push(rest);
    tail.push(&[0x80]);
    tail.push(&ZEROS[..zeros_end(at) - at]);
    tail.push(&bits(len));
    tail
}
