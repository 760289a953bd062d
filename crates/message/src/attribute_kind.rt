//! The kinds of attribute.
ghost use Rattle.std.specs.Prelude.{◌≡◌, Some};
ghost use Rattle.message.specs.Tables.{beside};
ghost use Rattle.message.specs.Values.{widths, within};
ghost use Rattle.message.specs.Kinds.{number_of, numbered, widest, Found};
ghost use Rattle.message.specs.Names.{attribute_name};

use crate::unknown_number::UnknownNumber;
use std::fmt;

/// What an attribute tells.
#[derive(Clone, Copy, PartialEq, Eq, Debug)]
pub enum AttributeKind {
    Header = 1,
    EndpointName = 3,
    CallingPartyNumber = 4,
    CalledPartyNumber = 5,
    TerminationCause = 11,
    RelatedCall = 13,
    ChargeNumber = 16,
    RoutingNumber = 25,
    UdpPort = 26,
    ServiceFlow = 30,
    Direction = 37,
    TimeAdjustment = 38,
    FlowDirection = 50,
}

impl AttributeKind {
    /// The number under which it is sent.
    pub fn number(self) -> u8
        ensures { result ≡ number_of self }
    {
        self as u8
    }

    /// The greatest width of its value in bytes.
    pub fn width(self) -> usize
        ensures { result ≡ widest (number_of self) }
    {
        match self {
            AttributeKind::Header => 76,
            AttributeKind::EndpointName => 32,
            AttributeKind::CallingPartyNumber
            | AttributeKind::CalledPartyNumber
            | AttributeKind::ChargeNumber
            | AttributeKind::RoutingNumber => 20,
            AttributeKind::TerminationCause => 6,
            AttributeKind::RelatedCall => 24,
            AttributeKind::UdpPort | AttributeKind::ServiceFlow => 4,
            AttributeKind::Direction | AttributeKind::FlowDirection => 2,
            AttributeKind::TimeAdjustment => 8,
        }
    }

    /// Whether a value of an attribute besides the header may have this width.
    pub fn allows(self, width: usize) -> bool
        ensures { result ≡ within width (beside (number_of self) widths) }
    {
        match self {
            AttributeKind::Header => false,
            AttributeKind::EndpointName => 1 <= width && width <= self.width(),
            _ => width == self.width(),
        }
    }
}

impl TryFrom<u8> for AttributeKind {
    type Error = UnknownNumber;

    ghost try_from_gives = { Found number_of numbered };

    fn try_from(number: u8) -> Result<AttributeKind, UnknownNumber> {
        match number {
            1 => Ok(AttributeKind::Header),
            3 => Ok(AttributeKind::EndpointName),
            4 => Ok(AttributeKind::CallingPartyNumber),
            5 => Ok(AttributeKind::CalledPartyNumber),
            11 => Ok(AttributeKind::TerminationCause),
            13 => Ok(AttributeKind::RelatedCall),
            16 => Ok(AttributeKind::ChargeNumber),
            25 => Ok(AttributeKind::RoutingNumber),
            26 => Ok(AttributeKind::UdpPort),
            30 => Ok(AttributeKind::ServiceFlow),
            37 => Ok(AttributeKind::Direction),
            38 => Ok(AttributeKind::TimeAdjustment),
            50 => Ok(AttributeKind::FlowDirection),
            _ => Err(UnknownNumber),
        }
    }
}

impl fmt::Display for AttributeKind {
    ghost output = { λ k. Some (attribute_name k) };

    fn fmt<W: fmt::Write>(&self, f: &mut fmt::Formatter<W>) -> fmt::Result {
        f.write_str(match self {
            AttributeKind::Header => "header",
            AttributeKind::EndpointName => "MTA_Endpoint_Name",
            AttributeKind::CallingPartyNumber => "Calling_Party_Number",
            AttributeKind::CalledPartyNumber => "Called_Party_Number",
            AttributeKind::TerminationCause => "Call_Termination_Cause",
            AttributeKind::RelatedCall => "Related_Call_BCID",
            AttributeKind::ChargeNumber => "Charge_Number",
            AttributeKind::RoutingNumber => "Routing_Number",
            AttributeKind::UdpPort => "MTA_UDP_Portnum",
            AttributeKind::ServiceFlow => "SF_ID",
            AttributeKind::Direction => "Direction_indicator",
            AttributeKind::TimeAdjustment => "Time_Adjustment",
            AttributeKind::FlowDirection => "Flow_Direction",
        })
    }
}
