//! The types of element.
ghost use Rattle.std.specs.Prelude.{◌≡◌, Some};
ghost use Rattle.message.specs.Kinds.{element_number, element_listed, Found};
ghost use Rattle.message.specs.Names.{element_name};

use crate::unknown_number::UnknownNumber;
use std::fmt;

/// What an element that sends messages is.
#[derive(Clone, Copy, PartialEq, Eq, Debug)]
pub enum ElementType {
    CallManagementServer = 1,
    CableModemTerminationSystem = 2,
    MediaGatewayController = 3,
}

impl ElementType {
    /// The Element_Type that tells it.
    pub fn number(self) -> u16
        ensures { result ≡ element_number self }
    {
        self as u16
    }
}

impl TryFrom<u16> for ElementType {
    type Error = UnknownNumber;

    ghost try_from_gives = { Found element_number element_listed };

    fn try_from(number: u16) -> Result<ElementType, UnknownNumber> {
        match number {
            1 => Ok(ElementType::CallManagementServer),
            2 => Ok(ElementType::CableModemTerminationSystem),
            3 => Ok(ElementType::MediaGatewayController),
            _ => Err(UnknownNumber),
        }
    }
}

impl fmt::Display for ElementType {
    ghost output = { λ k. Some (element_name k) };

    fn fmt<W: fmt::Write>(&self, f: &mut fmt::Formatter<W>) -> fmt::Result {
        f.write_str(match self {
            ElementType::CallManagementServer => "call management server",
            ElementType::CableModemTerminationSystem => "cable modem termination system",
            ElementType::MediaGatewayController => "media gateway controller",
        })
    }
}
