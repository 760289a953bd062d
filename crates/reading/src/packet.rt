//! The attributes of a packet, of which those of CableLabs make events.
ghost use Rattle.forms.specs.declared.encoding.Encoding.TheVariants.{Packet};

use crate::attribute::Attribute;
use crate::cursor::Cursor;
use crate::feed::EventFeed;
use crate::framing::Framing;
use crate::token::Token;
use crate::walk::attribute_at;
use message::attribute_kind::AttributeKind;
use message::attributes::Attributes;
use refusal::Fault;

/// Each attribute is a vendor attribute of CableLabs.
pub struct VendorAttributes;

/// The events of a packet.
pub type PacketFeed<'a> = EventFeed<'a, VendorAttributes>;

impl Framing for VendorAttributes {
    ghost encoding = { Packet };

    fn start() -> usize {
        20
    }

    // The first CableLabs attribute; all others are skipped. The place is carried, and no `Walk`: what is read is stated of the
    // bytes that were given, which a walk's would have to be shown to be.
    fn token<'a>(from: Cursor<'a>) -> Result<Option<Token<'a>>, Fault> {
        let bytes = from.bytes;
        let mut place = from.place;
        while let Some(attribute) = attribute_at(Cursor { bytes, place })? {
            match attribute {
                Attribute::CableLabs {
                    number,
                    value,
                    at,
                    next,
                } => {
                    return Ok(Some(Token {
                        at,
                        number,
                        body: value,
                        next,
                    }));
                }
                Attribute::Other { next, .. } => place = next,
            }
        }
        Ok(None)
    }

    fn value<'a>(_kind: AttributeKind, body: &'a [u8]) -> Option<&'a [u8]> {
        Some(body)
    }

    fn is_met(kind: AttributeKind, _last: Option<AttributeKind>, attributes: &Attributes) -> bool {
        attributes.has(kind)
    }
}
