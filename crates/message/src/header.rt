//! The header of an event message.
use fields::calendar::EventTime;
use fields::texts::{ElementId, TimeZone};

// Two types of one form, by a rule of this project: the one number never stands in for the other.

/// Counts an element's calls.
#[derive(Clone, Copy, PartialEq, Eq, Debug)]
pub struct EventCounter(pub u32);

/// Counts an element's messages.
#[derive(Clone, Copy, PartialEq, Eq, Debug)]
pub struct SequenceNumber(pub u32);

/// A Billing Correlation ID, which names a call.
#[derive(Clone, Copy, PartialEq, Eq, Debug)]
pub struct Bcid {
    pub timestamp: u32,
    pub element_id: ElementId,
    pub time_zone: TimeZone,
    pub event_counter: EventCounter,
}

#[derive(Clone, Copy, PartialEq, Eq, Debug)]
pub struct Header {
    pub version_id: u16,
    pub bcid: Bcid,
    /// The Event_Message_Type, which is the kind of event. It stays a number, as does the type of element: a header is read
    /// with any, and one that is not listed is refused only after the attributes were read.
    pub kind: u16,
    pub element_type: u16,
    pub element_id: ElementId,
    pub time_zone: TimeZone,
    pub sequence_number: SequenceNumber,
    pub event_time: EventTime,
    pub status: u32,
    pub priority: u8,
    /// How many other attributes the event has, the header not counted.
    pub attribute_count: u16,
    pub event_object: u8,
}
