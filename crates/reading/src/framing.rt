//! The two ways in which the attributes of events follow one another.
ghost use Rattle.std.specs.Prelude.{◌≡◌, length};
ghost use Rattle.forms.specs.declared.encoding.Encoding.{Encoding};
ghost use Rattle.reading.specs.Tokens.{token_at, seen, Further};
ghost use Rattle.reading.specs.Events.{value_in, start};
ghost use Rattle.reading.specs.Readings.{left, or_empty, last_number, met_in};
ghost use Rattle.message.specs.Kinds.{number_of};

use crate::cursor::Cursor;
use crate::token::Token;
use message::attribute_kind::AttributeKind;
use message::attributes::Attributes;
use refusal::Fault;

pub trait Framing {
    /// Which of the two it is.
    ghost encoding: { Encoding };

    /// Where the events of a delivery begin.
    fn start() -> usize
        ensures { result ≡ start encoding };

    /// The next attribute of an event from a place on.
    fn token<'a>(from: Cursor<'a>) -> Result<Option<Token<'a>>, Fault>
        ensures read { seen from.entry.bytes.now result ≡ token_at encoding from.entry.place (left from.entry) }
        ensures further { Further from.entry.place (length from.entry.bytes.now) result };

    /// The value in the body of an attribute, if that has the form of one.
    fn value<'a>(kind: AttributeKind, body: &'a [u8]) -> Option<&'a [u8]>
        ensures { or_empty result ≡ value_in encoding (number_of kind) body.now };

    /// Whether an attribute was met before, among those that were kept, of which `last` came last.
    fn is_met(kind: AttributeKind, last: Option<AttributeKind>, attributes: &Attributes) -> bool
        ensures { result ≡ met_in encoding (number_of kind) (last_number last) attributes.now };
}
