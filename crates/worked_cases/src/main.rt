//! Worked cases: what is read from small packets and spools, the digest's test suite, and buffers that are too small.
#![tactic(auto)]

mod answers;
mod building;
mod digests;
mod lines;
mod names;
mod outputs;
mod told;

use crate::answers::show_packet;
use crate::building::packet_of;
use crate::digests::show_digests;
use crate::lines::show_lines;
use crate::names::show_names;
use crate::outputs::show_outputs;
use std::io;

// The smallest packet, and one byte less.
fn show_smallest(rt: &HostRuntime) -> io::Result<()> {
    let packet = packet_of(rt.alloc(), &[])?;
    println!(rt; "A packet of Length 20")?;
    show_packet(rt, &packet)?;
    println!(rt; "The same, of which 19 bytes are given")?;
    show_packet(rt, packet.get(..19).unwrap_or(&[]))
}

// Bytes after Length are ignored, but they are counted.
fn show_greatest(rt: &HostRuntime) -> io::Result<()> {
    let mut packet = packet_of(rt.alloc(), &[])?;
    packet.extend_from_slice(&[0; 4075])?;
    println!(rt; "A packet of Length 20, with 4,095 bytes given")?;
    show_packet(rt, &packet)?;
    packet.push(0)?;
    println!(rt; "The same, with 4,096 bytes given")?;
    show_packet(rt, &packet)
}

fn main(rt: HostRuntime) -> io::Result<()> {
    show_smallest(&rt)?;
    show_greatest(&rt)?;
    show_names(&rt)?;
    show_lines(&rt)?;
    show_digests(&rt)?;
    show_outputs(&rt)
}
