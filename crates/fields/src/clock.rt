//! A time of day.
ghost use Rattle.std.specs.Prelude.{◌≡◌, ◌+◌, ◌*◌, ◌≤◌, ◌&&◌, length, nat_le};
ghost use Rattle.fields.specs.Texts.{pair_at};

use crate::digits::pair;

#[derive(Clone, Copy)]
pub(crate) struct Clock {
    pub(crate) hour: u32,
    pub(crate) minute: u32,
    pub(crate) second: u32,
}

impl Clock {
    /// Reads hhmmss from `i` on.
    pub(crate) fn read(bytes: &[u8], i: usize) -> Clock
        requires { i + 6 ≤ length bytes.now }
        ensures hour { result.hour ≡ pair_at i bytes.now }
        ensures minute { result.minute ≡ pair_at (i + 2) bytes.now }
        ensures second { result.second ≡ pair_at (i + 4) bytes.now }
    {
        Clock {
            hour: pair(bytes, i),
            minute: pair(bytes, i + 2),
            second: pair(bytes, i + 4),
        }
    }

    pub(crate) fn is_real(&self) -> bool
        ensures { result ≡ (nat_le self.now.hour 23 && nat_le self.now.minute 59 && nat_le self.now.second 59) }
    {
        self.hour <= 23 && self.minute <= 59 && self.second <= 59
    }

    /// The milliseconds since midnight.
    pub(crate) fn milliseconds(&self) -> u64
        ensures { result ≡ self.now.hour * 3600000 + self.now.minute * 60000 + self.now.second * 1000 }
    {
        u64::from(self.hour) * 3600000
            + u64::from(self.minute) * 60000
            + u64::from(self.second) * 1000
    }
}
