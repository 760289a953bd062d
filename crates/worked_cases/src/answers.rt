//! What a packet or a spool answers: its events, and how they end.
use crate::told::Refused;
use message::event::Event;
use packets::TakenUp;
use reading::feeds::Feed;
use reading::packet::PacketFeed;
use reading::spool::SpoolFeed;
use std::io;

fn show_feed<F: Feed>(rt: &HostRuntime, feed: &mut F) -> io::Result<()> {
    let mut event = Event::media_alive();
    loop {
        match feed.next(&mut event) {
            Ok(Some(at)) => println!(rt; "    {} at {at}", event.kind())?,
            Ok(None) => return println!(rt; "    end"),
            Err(fault) => return println!(rt; "    {}", Refused(fault)),
        }
    }
}

pub fn show_packet(rt: &HostRuntime, bytes: &[u8]) -> io::Result<()> {
    match TakenUp::take_up(bytes) {
        Ok(packet) => show_feed(rt, &mut PacketFeed::read_out(packet)),
        Err(fault) => println!(rt; "    {}", Refused(fault)),
    }
}

pub fn show_spool(rt: &HostRuntime, bytes: &[u8]) -> io::Result<()> {
    show_feed(rt, &mut SpoolFeed::new(bytes))
}
