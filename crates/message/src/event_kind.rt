//! The kinds of event.
ghost use Rattle.std.specs.Prelude.{◌≡◌, Some};
ghost use Rattle.message.specs.Rules.{listed};
ghost use Rattle.message.specs.Kinds.{event_number, Found};
ghost use Rattle.message.specs.Names.{event_name};

use crate::unknown_number::UnknownNumber;
use std::fmt;

/// A kind of event that the profile has.
#[derive(Clone, Copy, PartialEq, Eq, Debug)]
pub enum EventKind {
    SignalingStart = 1,
    SignalingStop = 2,
    QosReserve = 7,
    QosRelease = 8,
    CallAnswer = 15,
    CallDisconnect = 16,
    TimeChange = 17,
    QosCommit = 19,
    MediaAlive = 20,
}

impl EventKind {
    /// The Event_Message_Type that tells it.
    pub fn number(self) -> u16
        ensures { result ≡ event_number self }
    {
        self as u16
    }
}

impl TryFrom<u16> for EventKind {
    type Error = UnknownNumber;

    ghost try_from_gives = { Found event_number listed };

    fn try_from(number: u16) -> Result<EventKind, UnknownNumber> {
        match number {
            1 => Ok(EventKind::SignalingStart),
            2 => Ok(EventKind::SignalingStop),
            7 => Ok(EventKind::QosReserve),
            8 => Ok(EventKind::QosRelease),
            15 => Ok(EventKind::CallAnswer),
            16 => Ok(EventKind::CallDisconnect),
            17 => Ok(EventKind::TimeChange),
            19 => Ok(EventKind::QosCommit),
            20 => Ok(EventKind::MediaAlive),
            _ => Err(UnknownNumber),
        }
    }
}

impl fmt::Display for EventKind {
    ghost output = { λ k. Some (event_name k) };

    fn fmt<W: fmt::Write>(&self, f: &mut fmt::Formatter<W>) -> fmt::Result {
        f.write_str(match self {
            EventKind::SignalingStart => "Signaling_Start",
            EventKind::SignalingStop => "Signaling_Stop",
            EventKind::QosReserve => "QoS_Reserve",
            EventKind::QosRelease => "QoS_Release",
            EventKind::CallAnswer => "Call_Answer",
            EventKind::CallDisconnect => "Call_Disconnect",
            EventKind::TimeChange => "Time_Change",
            EventKind::QosCommit => "QoS_Commit",
            EventKind::MediaAlive => "Media_Alive",
        })
    }
}
