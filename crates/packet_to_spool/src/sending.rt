//! One event, sent as a packet of its own.
use crate::comparing::compare_all;
use crate::feeding::{Met, read_all};
use crate::front::show_front;
use crate::refused::Refused;
use packets::TakenUp;
use reading::packet::PacketFeed;
use std::{io, slice};
use writing::request::write_packet;

const IDENTIFIER: u8 = 7;

const ADDRESS: [u8; 4] = [10, 0, 0, 1];

const SECRET: [u8; 16] = *b"sixteen byte key";

/// The greatest length of such a packet.
const GREATEST: usize = 400;

fn receive(rt: &HostRuntime, sent: &Met, bytes: &[u8]) -> io::Result<()> {
    let packet = match TakenUp::take_up(bytes) {
        Ok(packet) => packet,
        Err(fault) => return println!(rt; "It is {}", Refused(fault)),
    };
    let front = packet.front();
    let again = read_all(rt.alloc(), &mut PacketFeed::read_out(packet))?;
    show_front(rt, front)?;
    println!(rt; "It is read back.")?;
    compare_all(rt, slice::from_ref(sent), &again)
}

/// Writes an event as a packet, and reads that back.
pub fn send(rt: &HostRuntime, met: &Met) -> io::Result<()> {
    let mut buffer = [0; GREATEST];
    match write_packet(&met.event, IDENTIFIER, &ADDRESS, &SECRET, &mut buffer) {
        Ok(length) => {
            println!(rt; "The first event is written as a packet of its own: {length} bytes.")?;
            receive(rt, met, &buffer[..length])
        }
        Err(fault) => println!(rt; "The first event is {}", Refused(fault)),
    }
}
