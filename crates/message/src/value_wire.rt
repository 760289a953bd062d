//! The values of attributes in bytes, both ways.
ghost use Rattle.std.specs.Prelude.{◌≡◌};
ghost use Rattle.message.specs.Values.{cause_at, cause_form, telephone_at, adjustment_at, adjustment_value};

use crate::attributes::{TelephoneNumber, TerminationCause, TimeAdjustment};
use wire::{Buffer, FixedWidth, part};

impl FixedWidth<6> for TerminationCause {
    ghost form = { cause_form };

    ghost found = { cause_at };

    fn read(bytes: &[u8], at: usize) -> TerminationCause {
        TerminationCause {
            source_document: u16::read(bytes, at),
            cause_code: u32::read(bytes, at + 2),
        }
    }

    fn to_bytes(&self) -> [u8; 6] {
        let mut out = Buffer::<6>::new();
        out.push(&self.source_document.to_bytes());
        out.push(&self.cause_code.to_bytes());
        out.into_array()
    }
}

// Two impls of one form: one over `[u8; N]` would have every caller take the bytes out of their types.

impl FixedWidth<20> for TelephoneNumber {
    ghost form = { λ x. x.0 };

    ghost found = { telephone_at };

    fn read(bytes: &[u8], at: usize) -> TelephoneNumber {
        TelephoneNumber(part(bytes, at))
    }

    fn to_bytes(&self) -> [u8; 20] {
        self.0
    }
}

impl FixedWidth<8> for TimeAdjustment {
    ghost form = { λ x. x.0 };

    ghost found = { adjustment_at };

    fn read(bytes: &[u8], at: usize) -> TimeAdjustment {
        TimeAdjustment(part(bytes, at))
    }

    fn to_bytes(&self) -> [u8; 8] {
        self.0
    }
}

impl TimeAdjustment {
    /// The milliseconds, with their sign.
    pub fn milliseconds(&self) -> i64
        ensures { result ≡ adjustment_value self.now }
    {
        i64::from_be_bytes(self.0)
    }
}
