//! Numbers in digits.
ghost use Rattle.std.specs.Prelude.{◌≡◌, ◌+◌, ◌-◌, ◌≤◌, length};
ghost use Rattle.fields.specs.Texts.{digits, pair_at};

pub(crate) fn is_digits(bytes: &[u8]) -> bool
    ensures { result ≡ digits bytes.now }
{
    bytes.iter().all(|b| b.is_ascii_digit())
}

/// The number that a digit stands for. The form of a field is judged apart, so any other byte gives a number too.
pub(crate) fn digit(b: u8) -> u32
    ensures value { result ≡ b - 48 }
    ensures small { result ≤ 207 }
{
    u32::from(b.saturating_sub(b'0'))
}

/// The number in the two digits from `i` on.
#[tactic(auto, unfolding(crate::specs::Texts::pair_at))]
pub(crate) fn pair(bytes: &[u8], i: usize) -> u32
    requires { i + 2 ≤ length bytes.now }
    ensures value { result ≡ pair_at i bytes.now }
    ensures small { result ≤ 2277 }
{
    10 * digit(bytes[i]) + digit(bytes[i + 1])
}
