//! Event_Time, and the milliseconds since 2000.
ghost use Rattle.std.specs.Prelude.{◌≡◌};
ghost use Rattle.fields.specs.Calendar.{year, timed, milliseconds};
ghost use Rattle.fields.specs.Texts.{pair_at};

use crate::clock::Clock;
use crate::date::Date;
use crate::digits::{digit, is_digits, pair};

// Its own type around bytes, for the reason that stands beside `ElementId`.

/// A date and a time of day, yyyymmddhhmmss.mmm.
#[derive(Clone, Copy, PartialEq, Eq, PartialOrd, Ord, Debug)]
pub struct EventTime(pub [u8; 18]);

impl EventTime {
    #[tactic(auto, unfolding(crate::specs::Calendar::timed))]
    pub fn is_well_formed(&self) -> bool
        ensures { result ≡ timed self.now.0 }
    {
        is_digits(&self.0[..14])
            && self.0[14] == b'.'
            && is_digits(&self.0[15..18])
            && self.date().is_real()
            && self.clock().is_real()
    }

    /// The milliseconds since 1 January 2000, by the calendar; the zone plays no part.
    #[tactic(auto, unfolding(crate::specs::Calendar::milliseconds, crate::specs::Calendar::days_before))]
    pub fn milliseconds(&self) -> u64
        ensures { result ≡ milliseconds self.now.0 }
    {
        let days = self.date().days_before();
        let thousandths = 10 * pair(&self.0, 15) + digit(self.0[17]);
        u64::from(days) * 86400000 + self.clock().milliseconds() + u64::from(thousandths)
    }

    fn date(&self) -> Date
        ensures year { result.year ≡ year self.now.0 }
        ensures month { result.month ≡ pair_at 4 self.now.0 }
        ensures day { result.day ≡ pair_at 6 self.now.0 }
    {
        Date {
            year: 100 * pair(&self.0, 0) + pair(&self.0, 2),
            month: pair(&self.0, 4),
            day: pair(&self.0, 6),
        }
    }

    fn clock(&self) -> Clock
        ensures hour { result.hour ≡ pair_at 8 self.now.0 }
        ensures minute { result.minute ≡ pair_at 10 self.now.0 }
        ensures second { result.second ≡ pair_at 12 self.now.0 }
    {
        Clock::read(&self.0, 8)
    }
}
