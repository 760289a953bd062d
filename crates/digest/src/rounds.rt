//! One block of 64 bytes, taken into the state.
ghost use Rattle.std.specs.Prelude.{◌≡◌, ℕ, ◌+◌, ◌<◌, ◌≤◌};
ghost use Rattle.digest.specs.Rounds.{word, round, mixed};
ghost use Rattle.digest.specs.Operations.{round_from, Picks, Computes};

use crate::state::State;
use crate::tables::{shift, sine};
use wire::part;

/// Word `k` of a block.
fn word_at(block: &[u8; 64], k: usize) -> u32
    requires { k < 16 }
    ensures { result ≡ word block.now k }
{
    u32::from_le_bytes(part(block, 4 * k))
}

// By number, and no chain over the tables: the number of an operation picks its word of the block too.
/// A round: the sixteen operations from number `first` on. Each takes `f` of three words of the state, and adds the word of
/// the block that `index` gives for the number of the operation.
fn round<F: Fn(u32, u32, u32) -> u32, P: Fn(usize) -> usize>(
    mut state: State,
    block: &[u8; 64],
    first: usize,
    f: F,
    index: P,
) -> State
    requires within { first + 16 ≤ 64 }
    requires function { F.IsAlwaysCallable f }
    requires rule { (i : ℕ) → i < 64 → P.pre index i }
    requires picks { Picks (P.post index) first }
    ensures { (fn : ℕ → ℕ → ℕ → ℕ) → Computes (F.post f) fn → result ≡ round fn (round_from first) block.now state }
{
    for i in first..first + 16 {
        let State { a, b, c, d } = state;
        let sum = a
            .wrapping_add(f(b, c, d))
            .wrapping_add(word_at(block, index(i)))
            .wrapping_add(sine(i));
        state = State {
            a: d,
            b: b.wrapping_add(sum.rotate_left(shift(i))),
            c: b,
            d: c,
        };
    }
    state
}

/// The state after a block.
pub fn mix(state: State, block: &[u8; 64]) -> State
    ensures { result ≡ mixed block.now state }
{
    let w = round(state, block, 0, |b, c, d| b & c | !b & d, |i| i);
    let w = round(w, block, 16, |b, c, d| b & d | c & !d, |i| (5 * i + 1) % 16);
    let w = round(w, block, 32, |b, c, d| b ^ c ^ d, |i| (3 * i + 5) % 16);
    let w = round(w, block, 48, |b, c, d| c ^ (b | !d), |i| 7 * i % 16);
    State {
        a: w.a.wrapping_add(state.a),
        b: w.b.wrapping_add(state.b),
        c: w.c.wrapping_add(state.c),
        d: w.d.wrapping_add(state.d),
    }
}
