//! What a new place for an event holds.
ghost use Rattle.std.specs.Prelude.{◌≡◌, []};
ghost use Rattle.message.specs.Values.{attributes_of};
ghost use Rattle.message.specs.MediaAlive.{alive_header};

use crate::attributes::Attributes;
use crate::element_type::ElementType;
use crate::event::Event;
use crate::event_kind::EventKind;
use crate::header::{Bcid, EventCounter, Header, SequenceNumber};
use fields::calendar::EventTime;
use fields::texts::{ElementId, TimeZone};

impl Event {
    /// A Media_Alive: the event that stands in a new place.
    pub fn media_alive() -> Event
        ensures header { result.header ≡ alive_header }
        ensures attributes { result.attributes ≡ attributes_of [] }
    {
        let attributes = Attributes::none();
        let header = Header {
            version_id: 4,
            bcid: Bcid {
                timestamp: 0x4bfa4473,
                element_id: ElementId(*b"   32631"),
                time_zone: TimeZone(*b"1+030000"),
                event_counter: EventCounter(9),
            },
            kind: EventKind::MediaAlive.number(),
            element_type: ElementType::CallManagementServer.number(),
            element_id: ElementId(*b"   32631"),
            time_zone: TimeZone(*b"1+030000"),
            sequence_number: SequenceNumber(0),
            event_time: EventTime(*b"20100524121843.407"),
            status: 8,
            priority: 128,
            attribute_count: 0,
            event_object: 0,
        };
        Event { header, attributes }
    }
}
