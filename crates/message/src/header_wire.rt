//! A header in 76 bytes, both ways.
ghost use Rattle.std.specs.Prelude.{◌≡◌};
ghost use Rattle.message.specs.Headers.{header_form, header_of};

use crate::header::{Bcid, Header, SequenceNumber};
use fields::calendar::EventTime;
use fields::texts::{ElementId, TimeZone};
use wire::{Buffer, FixedWidth, part};

impl Header {
    /// The header that 76 bytes hold.
    pub fn from_bytes(bytes: &[u8; 76]) -> Header
        ensures { result ≡ header_of bytes.now }
    {
        Header {
            version_id: u16::read(bytes, 0),
            bcid: Bcid::read(bytes, 2),
            kind: u16::read(bytes, 26),
            element_type: u16::read(bytes, 28),
            element_id: ElementId(part(bytes, 30)),
            time_zone: TimeZone(part(bytes, 38)),
            sequence_number: SequenceNumber(u32::read(bytes, 46)),
            event_time: EventTime(part(bytes, 50)),
            status: u32::read(bytes, 68),
            priority: bytes[72],
            attribute_count: u16::read(bytes, 73),
            event_object: bytes[75],
        }
    }

    pub fn to_bytes(&self) -> [u8; 76]
        ensures { result ≡ header_form self.now }
    {
        let mut out = Buffer::<76>::new();
        out.push(&self.version_id.to_bytes());
        out.push(&self.bcid.to_bytes());
        out.push(&self.kind.to_bytes());
        out.push(&self.element_type.to_bytes());
        out.push(&self.element_id.0);
        out.push(&self.time_zone.0);
        out.push(&self.sequence_number.0.to_bytes());
        out.push(&self.event_time.0);
        out.push(&self.status.to_bytes());
        out.push(&[self.priority]);
        out.push(&self.attribute_count.to_bytes());
        out.push(&[self.event_object]);
        out.into_array()
    }
}
