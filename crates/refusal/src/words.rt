//! Places and refusals in words.
ghost use Rattle.std.specs.Prelude.{Some};
ghost use Rattle.refusal.specs.Words.{place_name, meaning};

use crate::{Fault, Place};
use std::fmt;

impl fmt::Display for Place {
    ghost output = { λ p. Some (place_name p) };

    fn fmt<W: fmt::Write>(&self, f: &mut fmt::Formatter<W>) -> fmt::Result {
        f.write_str(match self {
            Place::Packet => "packet",
            Place::Attribute => "attribute",
            Place::Item => "item",
            Place::Event => "event",
            Place::Output => "output",
        })
    }
}

/// What is wrong, with no number, place or offset.
impl fmt::Display for Fault {
    ghost output = { λ f. Some (meaning f) };

    fn fmt<W: fmt::Write>(&self, f: &mut fmt::Formatter<W>) -> fmt::Result {
        f.write_str(match self {
            Fault::PacketSize => "fewer than 20 bytes, or more than 4,095",
            Fault::PacketCode => "the code is not that of an Accounting-Request",
            Fault::PacketLength => "Length is under 20, or over the bytes given",
            Fault::MalformedAttribute { .. } => "an attribute whose lengths do not agree",
            Fault::CutItem { .. } => "the spool ends inside an item",
            Fault::UnknownItem { .. } => "an item of an unknown kind",
            Fault::UnknownAttribute { .. } => "a CableLabs attribute of an unknown number",
            Fault::WrongWidth { .. } =>
                "a value of a wrong width, or a name that is not padded with zeros",
            Fault::Misplaced { .. } =>
                "a header where none is due, or none where one is, or the end too early",
            Fault::Repeated { .. } => "a number that was met before, or does not ascend",
            Fault::UnknownKind { .. } => "a kind of event that is not in the profile",
            Fault::HeaderForm { .. } => "a field of the header has not its form",
            Fault::MandatoryMissing { .. } =>
                "an attribute that this kind of event must have is absent",
            Fault::OutputTooSmall => "the buffer is too small",
        })
    }
}
