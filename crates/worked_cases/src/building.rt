//! Packets and spools, made piece by piece.
ghost use Rattle.std.specs.Prelude.{◌≤◌, length};

use forms::encoding::Encoding;
use message::attribute_kind::AttributeKind;
use message::event::Event;
use message::event_kind::EventKind;
use message::header::Header;
use std::alloc::{AllocError, Global};

/// The header of a Media_Alive, for another kind of event with other attributes.
pub fn header_of(kind: EventKind, attribute_count: u16) -> Header {
    Header {
        kind: kind.number(),
        attribute_count,
        ..Event::media_alive().header
    }
}

/// Adds an item of a spool, or a vendor attribute of CableLabs, with any value: the library's writer makes none that is
/// faulty.
pub fn push(
    out: &mut Vec<u8>,
    encoding: Encoding,
    kind: AttributeKind,
    value: &[u8],
) -> Result<(), AllocError>
    requires { length value.now ≤ 76 }
{
    let number = kind.number();
    // Two cases of three lines; a closure for each would only move them to the callers. That a value has at most 76 bytes is asked of
    // the callers too: a type for such a slice would be made and taken apart at every call.
    match encoding {
        Encoding::Spool => out.push(number)?,
        Encoding::Packet => {
            let width = value.len() as u8;
            out.extend_from_slice(&[26, 8 + width, 0, 0, 17, 139, number, 2 + width])?
        }
    }
    out.extend_from_slice(value)
}

/// An Accounting-Request around some attributes, with the identifier 7 and an authenticator of zeros.
pub fn packet_of(heap: Global, attributes: &[u8]) -> Result<Vec<u8>, AllocError> {
    let length = u16::try_from(attributes.len())
        .unwrap_or(u16::MAX)
        .saturating_add(20);
    let mut packet = Vec::new(heap);
    packet.extend_from_slice(&[4, 7])?;
    packet.extend_from_slice(&length.to_be_bytes())?;
    packet.extend_from_slice(&[0; 16])?;
    packet.extend_from_slice(attributes)?;
    Ok(packet)
}
