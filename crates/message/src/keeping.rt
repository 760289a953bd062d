//! Attributes as they are read, one after another.
ghost use Rattle.std.specs.Prelude.{◌≡◌, true, [], is_some};
ghost use Rattle.message.specs.Values.{fits, value, attributes_of, kept};
ghost use Rattle.message.specs.Kinds.{number_of};

use crate::attribute_kind::AttributeKind;
use crate::attributes::{
    Attributes, EndpointName, TelephoneNumber, TerminationCause, TimeAdjustment,
};
use crate::header::Bcid;
use wire::FixedWidth;

impl Attributes {
    /// No attributes.
    pub fn none() -> Attributes
        ensures { result ≡ attributes_of [] }
    {
        Attributes::default()
    }

    /// Keeps the value of one attribute.
    pub fn keep(&mut self, kind: AttributeKind, value: &[u8])
        requires { fits (number_of kind, value.now) ≡ true }
        ensures { self.new ≡ kept (number_of kind) value.now self.old }
    {
        match kind {
            AttributeKind::Header => {}
            AttributeKind::EndpointName => self.endpoint_name = Some(EndpointName::read(value)),
            AttributeKind::CallingPartyNumber => {
                self.calling_party_number = Some(TelephoneNumber::read(value, 0));
            }
            AttributeKind::CalledPartyNumber => {
                self.called_party_number = Some(TelephoneNumber::read(value, 0));
            }
            AttributeKind::TerminationCause => {
                self.termination_cause = Some(TerminationCause::read(value, 0));
            }
            AttributeKind::RelatedCall => self.related_call = Some(Bcid::read(value, 0)),
            AttributeKind::ChargeNumber => {
                self.charge_number = Some(TelephoneNumber::read(value, 0));
            }
            AttributeKind::RoutingNumber => {
                self.routing_number = Some(TelephoneNumber::read(value, 0));
            }
            AttributeKind::UdpPort => self.udp_port = Some(u32::read(value, 0)),
            AttributeKind::ServiceFlow => self.service_flow = Some(u32::read(value, 0)),
            AttributeKind::Direction => self.direction = Some(u16::read(value, 0)),
            AttributeKind::TimeAdjustment => {
                self.time_adjustment = Some(TimeAdjustment::read(value, 0));
            }
            AttributeKind::FlowDirection => self.flow_direction = Some(u16::read(value, 0)),
        }
    }

    /// Whether one with this kind was kept.
    pub fn has(&self, kind: AttributeKind) -> bool
        ensures { result ≡ is_some (value (number_of kind) self.now) }
    {
        match kind {
            AttributeKind::Header => false,
            AttributeKind::EndpointName => self.endpoint_name.is_some(),
            AttributeKind::CallingPartyNumber => self.calling_party_number.is_some(),
            AttributeKind::CalledPartyNumber => self.called_party_number.is_some(),
            AttributeKind::TerminationCause => self.termination_cause.is_some(),
            AttributeKind::RelatedCall => self.related_call.is_some(),
            AttributeKind::ChargeNumber => self.charge_number.is_some(),
            AttributeKind::RoutingNumber => self.routing_number.is_some(),
            AttributeKind::UdpPort => self.udp_port.is_some(),
            AttributeKind::ServiceFlow => self.service_flow.is_some(),
            AttributeKind::Direction => self.direction.is_some(),
            AttributeKind::TimeAdjustment => self.time_adjustment.is_some(),
            AttributeKind::FlowDirection => self.flow_direction.is_some(),
        }
    }
}
