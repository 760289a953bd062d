//! The MD5 message digest of RFC 1321.
#![tactic(auto)]

ghost use Rattle.std.specs.Prelude.{◌≡◌};
ghost use Rattle.digest.specs.Md5.{md5};

mod blocks;
mod padding;
mod rounds;
mod state;
mod tables;

use blocks::absorb;
use padding::pad;
use state::State;

/// Writes the digest of `message` to `out`.
// Lent memory and no result, by a rule of this project: whoever signs lends the sixteen bytes of the authenticator alone.
pub fn digest(message: &[u8], out: &mut [u8; 16])
    ensures { out.new ≡ md5 message.now }
{
    let (blocks, rest) = message.as_chunks::<64>();
    // What is left is less than a block, and takes up to two blocks with its padding.
    let tail = pad(rest, message.len());
    let (last, _) = tail.as_bytes().as_chunks::<64>();
    *out = absorb(absorb(State::first(), blocks), last).to_bytes();
}
