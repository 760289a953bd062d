//! A Signaling_Start around a name that is just short enough, and one that is too long.
ghost use Rattle.std.specs.Prelude.{◌≤◌, length};

use crate::answers::{show_packet, show_spool};
use crate::building::{header_of, packet_of, push};
use forms::encoding::Encoding;
use message::attribute_kind::AttributeKind;
use message::event_kind::EventKind;
use std::alloc::{AllocError, Global};
use std::io;
use wire::FixedWidth;

const TELEPHONE: [u8; 20] = *b"             service";

const ORIGINATING: [u8; 2] = [0, 1];

fn start_with(heap: Global, encoding: Encoding, name: &[u8]) -> Result<Vec<u8>, AllocError>
    requires { length name.now ≤ 76 }
{
    let header = header_of(EventKind::SignalingStart, 4).to_bytes();
    let mut out = Vec::new(heap);
    push(&mut out, encoding, AttributeKind::Header, &header)?;
    push(&mut out, encoding, AttributeKind::EndpointName, name)?;
    push(
        &mut out,
        encoding,
        AttributeKind::CalledPartyNumber,
        &TELEPHONE,
    )?;
    push(&mut out, encoding, AttributeKind::RoutingNumber, &TELEPHONE)?;
    push(&mut out, encoding, AttributeKind::Direction, &ORIGINATING)?;
    Ok(out)
}

// In a packet a name stands alone.
fn show_in_packet<const N: usize>(rt: &HostRuntime) -> io::Result<()>
    requires { N ≤ 76 }
{
    let heap = rt.alloc();
    println!(rt; "A packet with a name of {N} bytes")?;
    let attributes = start_with(heap, Encoding::Packet, &[b'n'; N])?;
    show_packet(rt, &packet_of(heap, &attributes)?)
}

// In a spool it has its length in front, and always 32 bytes.
fn show_in_spool(rt: &HostRuntime, length: u8) -> io::Result<()> {
    let mut name = [b'n'; 33];
    name[0] = length;
    println!(rt; "A spool with a name whose length byte is {length}")?;
    show_spool(rt, &start_with(rt.alloc(), Encoding::Spool, &name)?)
}

pub fn show_names(rt: &HostRuntime) -> io::Result<()> {
    show_in_packet::<32>(rt)?;
    show_in_packet::<33>(rt)?;
    show_in_spool(rt, 32)?;
    show_in_spool(rt, 33)
}
