//! The values of an event in words.
use crate::text::{Quoted, Text};
use fields::calendar::EventTime;
use message::attributes::{TerminationCause, TimeAdjustment};
use message::header::Bcid;
use std::fmt;

/// The call that a BCID names.
#[derive(Clone, Copy)]
pub struct Call(pub Bcid);

impl fmt::Display for Call {
    fn fmt<W: fmt::Write>(&self, f: &mut fmt::Formatter<W>) -> fmt::Result {
        let bcid = &self.0;
        let timestamp = bcid.timestamp;
        let element = Quoted(&bcid.element_id.0);
        let zone = Text(&bcid.time_zone.0);
        let counter = bcid.event_counter.0;
        write!(
            f,
            "timestamp 0x{timestamp:08x}, element {element}, zone {zone}, event counter {counter}"
        )
    }
}

/// A date and a time of day.
#[derive(Clone, Copy)]
pub struct Moment(pub EventTime);

impl fmt::Display for Moment {
    fn fmt<W: fmt::Write>(&self, f: &mut fmt::Formatter<W>) -> fmt::Result {
        let t = &self.0.0;
        write!(
            f,
            "{}-{}-{} ",
            Text(&t[0..4]),
            Text(&t[4..6]),
            Text(&t[6..8])
        )?;
        write!(
            f,
            "{}:{}:{}",
            Text(&t[8..10]),
            Text(&t[10..12]),
            Text(&t[12..18])
        )
    }
}

/// Why a call ended.
#[derive(Clone, Copy)]
pub struct Cause(pub TerminationCause);

impl fmt::Display for Cause {
    fn fmt<W: fmt::Write>(&self, f: &mut fmt::Formatter<W>) -> fmt::Result {
        let document = self.0.source_document;
        let code = self.0.cause_code;
        write!(f, "Source_Document={document}, Cause_Code={code}")
    }
}

/// By how much a clock was set.
#[derive(Clone, Copy)]
pub struct Adjustment(pub TimeAdjustment);

impl fmt::Display for Adjustment {
    fn fmt<W: fmt::Write>(&self, f: &mut fmt::Formatter<W>) -> fmt::Result {
        write!(f, "{} milliseconds", self.0.milliseconds())
    }
}

/// A number of any value, of which 1 and 2 have a name.
#[derive(Clone, Copy)]
pub struct Named(pub u16, pub [&'static str; 2]);

impl fmt::Display for Named {
    fn fmt<W: fmt::Write>(&self, f: &mut fmt::Formatter<W>) -> fmt::Result {
        let Named(number, [first, second]) = *self;
        let name = match number {
            1 => first,
            2 => second,
            _ => "undefined",
        };
        write!(f, "{number} ({name})")
    }
}
