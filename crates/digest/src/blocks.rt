//! The blocks of a message, one after another.
ghost use Rattle.std.specs.Prelude.{◌≡◌, fold};
ghost use Rattle.digest.specs.Rounds.{mixed};

use crate::rounds::mix;
use crate::state::State;

/// The state after the blocks.
pub fn absorb(state: State, blocks: &[[u8; 64]]) -> State
    ensures { result ≡ fold (λ w block. mixed block w) state blocks.now }
{
    blocks.iter().fold(state, mix)
}
