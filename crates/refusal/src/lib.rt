//! Refusals: what is wrong with an input or an output buffer, and where.
#![tactic(auto)]

ghost use Rattle.std.specs.Prelude.{◌≡◌};
ghost use Rattle.refusal.specs.Table.{told};

mod words;

/// The part of the work that a fault is in.
#[derive(Clone, Copy, PartialEq, Eq, Debug)]
pub enum Place {
    Packet,
    Attribute,
    Item,
    Event,
    Output,
}

/// A refusal. `at` is an offset from the delivery's first byte.
#[derive(Clone, Copy, PartialEq, Eq, Debug)]
pub enum Fault {
    /// Fewer than 20 bytes, or more than 4,095.
    PacketSize,
    /// The code is not that of an Accounting-Request.
    PacketCode,
    /// Length is under 20, or over the bytes given.
    PacketLength,
    /// A packet attribute whose lengths do not agree with each other or with the packet.
    MalformedAttribute { at: usize },
    /// The spool ends inside an item.
    CutItem { at: usize },
    /// A spool item of an unknown kind.
    UnknownItem { at: usize },
    /// A CableLabs attribute of an unknown number.
    UnknownAttribute { at: usize },
    /// A value of a wrong width, or a name that is not padded with zeros.
    WrongWidth { at: usize },
    /// A header among the counted, something else where a header is due, or the end too early.
    Misplaced { at: usize },
    /// A number met before; in a spool, one that does not ascend.
    Repeated { at: usize },
    /// The kind of message is not in the profile.
    UnknownKind { at: usize },
    /// A field of the header has not the form that it must have.
    HeaderForm { at: usize },
    /// An attribute that this kind of message must have is absent.
    MandatoryMissing { at: usize },
    /// The buffer is too small for what is to be written.
    OutputTooSmall,
}

/// What is told of a fault.
#[derive(Clone, Copy, PartialEq, Eq, Debug)]
pub struct Told {
    pub number: u8,
    pub place: Place,
    pub offset: usize,
}

impl Fault {
    /// All that is told of the fault.
    pub fn told(&self) -> Told
        ensures { result ≡ told self.now }
    {
        let (number, place, offset) = match *self {
            Fault::PacketSize => (1, Place::Packet, 0),
            Fault::PacketCode => (2, Place::Packet, 0),
            Fault::PacketLength => (3, Place::Packet, 0),
            Fault::MalformedAttribute { at } => (4, Place::Attribute, at),
            Fault::CutItem { at } => (5, Place::Item, at),
            Fault::UnknownItem { at } => (6, Place::Item, at),
            Fault::UnknownAttribute { at } => (6, Place::Event, at),
            Fault::WrongWidth { at } => (7, Place::Event, at),
            Fault::Misplaced { at } => (8, Place::Event, at),
            Fault::Repeated { at } => (9, Place::Event, at),
            Fault::UnknownKind { at } => (10, Place::Event, at),
            Fault::HeaderForm { at } => (11, Place::Event, at),
            Fault::MandatoryMissing { at } => (12, Place::Event, at),
            Fault::OutputTooSmall => (15, Place::Output, 0),
        };
        Told {
            number,
            place,
            offset,
        }
    }

    /// The number under which the fault is told.
    pub fn number(&self) -> u8
        ensures { result ≡ (told self.now).number }
    {
        self.told().number
    }

    /// The place that it is in.
    pub fn place(&self) -> Place
        ensures { result ≡ (told self.now).place }
    {
        self.told().place
    }

    /// Where it is, from the delivery's first byte.
    pub fn offset(&self) -> usize
        ensures { result ≡ (told self.now).offset }
    {
        self.told().offset
    }
}
