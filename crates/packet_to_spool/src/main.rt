//! Takes an Accounting-Request through from its bytes to a spool and back, and tells each step.
#![tactic(auto)]

mod comparing;
mod feeding;
mod front;
mod input;
mod names;
mod refused;
mod sending;
mod spooling;
mod telling;
mod text;
mod values;
mod walking;

use crate::feeding::{Met, Reading, read_all};
use crate::front::show_front;
use crate::input::{Hexadecimal, read_hex};
use crate::refused::Refused;
use crate::sending::send;
use crate::spooling::spool_and_compare;
use crate::telling::show_event;
use crate::walking::show_attributes;
use packets::TakenUp;
use reading::packet::PacketFeed;
use std::io;

fn show_input(rt: &HostRuntime, input: &Hexadecimal) -> io::Result<()> {
    let count = input.bytes.as_bytes().len();
    println!(rt; "{count} bytes were read from hexadecimal text.")?;
    if let Err(stop) = input.ending {
        println!(rt; "Reading ended early: {stop}")?;
    }
    println!(rt)
}

// What was met before a fault is shown all the same.
fn show_reading(rt: &HostRuntime, reading: &Reading) -> io::Result<()> {
    for (number, met) in (1..).zip(&reading.met) {
        show_event(rt, number, met)?;
    }
    let count = reading.met.len();
    match reading.ending {
        Ok(()) => println!(rt; "Events read: {count}. Then the packet ends.\n"),
        Err(fault) => println!(rt;
            "Events read: {count}. Then the packet is {}\n",
            Refused(fault)
        ),
    }
}

fn write_events(rt: &HostRuntime, met: &[Met]) -> io::Result<()> {
    match met.first() {
        Some(first) => {
            spool_and_compare(rt, met)?;
            send(rt, first)
        }
        None => println!(rt; "There is no event to write."),
    }
}

fn follow(rt: &HostRuntime, packet: TakenUp) -> io::Result<()> {
    let front = packet.front();
    let held = packet.bytes();
    let reading = read_all(rt.alloc(), &mut PacketFeed::read_out(packet))?;
    show_front(rt, front)?;
    show_attributes(rt, held)?;
    show_reading(rt, &reading)?;
    write_events(rt, &reading.met)
}

fn main(rt: HostRuntime) -> io::Result<()> {
    let input = read_hex(&rt)?;
    show_input(&rt, &input)?;
    match TakenUp::take_up(input.bytes.as_bytes()) {
        Ok(packet) => follow(&rt, packet),
        Err(fault) => println!(rt; "The packet is {}", Refused(fault)),
    }
}
