//! An event in words.
use crate::feeding::Met;
use crate::text::{Quoted, Text};
use crate::values::{Adjustment, Call, Cause, Moment, Named};
use message::attribute_kind::AttributeKind;
use message::attributes::{Attributes, EndpointName, TelephoneNumber};
use message::event::Event;
use message::header::Header;
use std::{fmt, io};

pub fn show_event(rt: &HostRuntime, number: usize, met: &Met) -> io::Result<()> {
    let event = &met.event;
    let at = met.at;
    let kind = event.kind();
    println!(rt;
        "Event {number}: {kind} ({}), its header at {at}",
        kind.number()
    )?;
    show_origin(rt, event)?;
    show_message(rt, &event.header)?;
    show_values(rt, &event.attributes)?;
    println!(rt)
}

// The call, and the element that tells of it.
fn show_origin(rt: &HostRuntime, event: &Event) -> io::Result<()> {
    let header = &event.header;
    let version = header.version_id;
    let element = event.element_type();
    println!(rt; "  version          {version}")?;
    println!(rt; "  call             {}", Call(header.bcid))?;
    println!(rt;
        "  element          {}, type {} ({element}), zone {}",
        Quoted(&header.element_id.0),
        element.number(),
        Text(&header.time_zone.0)
    )
}

// When it was told, and how.
fn show_message(rt: &HostRuntime, header: &Header) -> io::Result<()> {
    let sequence = header.sequence_number.0;
    let milliseconds = header.event_time.milliseconds();
    let status = header.status;
    let priority = header.priority;
    let object = header.event_object;
    let count = header.attribute_count;
    println!(rt; "  sequence number  {sequence}")?;
    println!(rt;
        "  time             {}, {milliseconds} milliseconds since 2000",
        Moment(header.event_time)
    )?;
    println!(rt; "  status           {status}, priority {priority}, event object {object}")?;
    println!(rt; "  attributes       {count}")
}

// A line for an attribute, if it is there.
fn show_value(
    rt: &HostRuntime,
    kind: AttributeKind,
    value: Option<impl fmt::Display + Drop>,
) -> io::Result<()> {
    match value {
        Some(value) => println!(rt; "    {:>2} {kind}: {value}", kind.number()),
        None => Ok(()),
    }
}

fn show_name(rt: &HostRuntime, name: &Option<EndpointName>) -> io::Result<()> {
    let text = name.as_ref().map(|name| Quoted(name.as_bytes()));
    show_value(rt, AttributeKind::EndpointName, text)
}

fn show_telephone(
    rt: &HostRuntime,
    kind: AttributeKind,
    telephone: &Option<TelephoneNumber>,
) -> io::Result<()> {
    show_value(rt, kind, telephone.as_ref().map(|number| Quoted(&number.0)))
}

fn show_values(rt: &HostRuntime, a: &Attributes) -> io::Result<()> {
    show_name(rt, &a.endpoint_name)?;
    show_telephone(
        rt,
        AttributeKind::CallingPartyNumber,
        &a.calling_party_number,
    )?;
    show_telephone(rt, AttributeKind::CalledPartyNumber, &a.called_party_number)?;
    show_value(
        rt,
        AttributeKind::TerminationCause,
        a.termination_cause.map(Cause),
    )?;
    show_value(rt, AttributeKind::RelatedCall, a.related_call.map(Call))?;
    show_telephone(rt, AttributeKind::ChargeNumber, &a.charge_number)?;
    show_telephone(rt, AttributeKind::RoutingNumber, &a.routing_number)?;
    show_value(rt, AttributeKind::UdpPort, a.udp_port)?;
    show_value(rt, AttributeKind::ServiceFlow, a.service_flow)?;
    show_value(
        rt,
        AttributeKind::Direction,
        a.direction
            .map(|n| Named(n, ["originating", "terminating"])),
    )?;
    show_value(
        rt,
        AttributeKind::TimeAdjustment,
        a.time_adjustment.map(Adjustment),
    )?;
    show_value(
        rt,
        AttributeKind::FlowDirection,
        a.flow_direction
            .map(|n| Named(n, ["upstream", "downstream"])),
    )
}
