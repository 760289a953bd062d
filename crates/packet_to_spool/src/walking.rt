//! The attributes of a packet, one after another.
use crate::names::{AttributeName, radius_name};
use crate::refused::Refused;
use reading::attribute::Attribute;
use reading::walk::Walk;
use std::io;

fn show_attribute(rt: &HostRuntime, attribute: Attribute) -> io::Result<()> {
    match attribute {
        Attribute::CableLabs {
            number,
            value,
            at,
            ..
        } => println!(rt;
            "  at {at:>4}  CableLabs {number:>3}  {}, {} bytes",
            AttributeName(number),
            value.len()
        ),
        Attribute::Other {
            kind,
            value,
            at,
            ..
        } => println!(rt;
            "  at {at:>4}  other     {kind:>3}  {}, {} bytes",
            radius_name(kind),
            value.len()
        ),
    }
}

/// Ends at the end of the packet, or at the first attribute that is broken.
pub fn show_attributes(rt: &HostRuntime, packet: &[u8]) -> io::Result<()> {
    println!(rt; "Its attributes:")?;
    let mut walk = Walk::new(packet);
    loop {
        match walk.next() {
            Ok(Some(attribute)) => show_attribute(rt, attribute)?,
            Ok(None) => break,
            Err(fault) => {
                println!(rt; "  The walk is {}", Refused(fault))?;
                break;
            }
        }
    }
    println!(rt)
}
