//! A BCID in 24 bytes, both ways.
ghost use Rattle.message.specs.Headers.{bcid_form, bcid_at};

use crate::header::{Bcid, EventCounter};
use fields::texts::{ElementId, TimeZone};
use wire::{Buffer, FixedWidth, part};

impl FixedWidth<24> for Bcid {
    ghost form = { bcid_form };

    ghost found = { bcid_at };

    fn read(bytes: &[u8], at: usize) -> Bcid {
        Bcid {
            timestamp: u32::read(bytes, at),
            element_id: ElementId(part(bytes, at + 4)),
            time_zone: TimeZone(part(bytes, at + 12)),
            event_counter: EventCounter(u32::read(bytes, at + 20)),
        }
    }

    fn to_bytes(&self) -> [u8; 24] {
        let mut out = Buffer::<24>::new();
        out.push(&self.timestamp.to_bytes());
        out.push(&self.element_id.0);
        out.push(&self.time_zone.0);
        out.push(&self.event_counter.0.to_bytes());
        out.into_array()
    }
}
