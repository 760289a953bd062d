//! The walk over the attributes of a packet, one after another.
ghost use Rattle.std.specs.Prelude.{IfOk, ◌≡◌, ℕ, min, List, length, drop};
ghost use Rattle.reading.specs.Readings.{left};
ghost use Rattle.reading.specs.Walks.{attribute_at, vendor_in, viewed, next_place, Onward, found, end_of, gone};

use crate::attribute::Attribute;
use crate::cursor::Cursor;
use refusal::Fault;
use wire::FixedWidth;

/// What stands behind type 26 and its length: a vendor, and for CableLabs a number, a length and a value that fill the rest.
fn vendor<'a>(value: &'a [u8], at: usize, next: usize) -> Result<Attribute<'a>, Fault>
    ensures read { (rest : List ℕ) → viewed rest (found result) ≡ vendor_in at value.now next rest }
    ensures next { IfOk result (λ a. end_of a ≡ next) }
{
    let malformed = Fault::MalformedAttribute { at };
    if value.len() < 4 {
        return Err(malformed);
    }
    if u32::read(value, 0) != 4491 {
        return Ok(Attribute::Other {
            kind: 26,
            value,
            at,
            next,
        });
    }
    if value.len() < 6 || value[5] as usize != value.len() - 4 {
        return Err(malformed);
    }
    Ok(Attribute::CableLabs {
        number: value[4],
        value: &value[6..],
        at,
        next,
    })
}

/// The attribute that stands at a place.
pub(crate) fn attribute_at<'a>(from: Cursor<'a>) -> Result<Option<Attribute<'a>>, Fault>
    ensures read { viewed (drop (next_place result) from.entry.bytes.now) result ≡ attribute_at from.entry.place (left from.entry) }
    ensures onward { Onward from.entry.place (length from.entry.bytes.now) result }
{
    let bytes = from.bytes;
    let at = from.place;
    let left = bytes.len() - at;
    if left == 0 {
        return Ok(None);
    }
    let malformed = Fault::MalformedAttribute { at };
    if left < 2 {
        return Err(malformed);
    }
    let size = bytes[at + 1] as usize;
    if size < 2 || left < size {
        return Err(malformed);
    }
    let value = &bytes[at + 2..at + size];
    if bytes[at] == 26 {
        return Ok(Some(vendor(value, at, at + size)?));
    }
    Ok(Some(Attribute::Other {
        kind: bytes[at],
        value,
        at,
        next: at + size,
    }))
}

impl<'a> Attribute<'a> {
    /// The place behind it.
    fn end(&self) -> usize
        ensures { result ≡ end_of self.now }
    {
        match self {
            Attribute::CableLabs { next, .. } | Attribute::Other { next, .. } => *next,
        }
    }
}

/// The attributes of a packet from a place on.
#[derive(Drop)]
pub struct Walk<'a> {
    cursor: Cursor<'a>,
}

impl<'a> Walk<'a> {
    /// The attributes of a packet, which begin at byte 20.
    pub fn new(packet: &'a [u8]) -> Walk<'a>
        ensures bytes { result.cursor.bytes.now ≡ packet.now }
        ensures place { result.cursor.place ≡ min (length packet.now) 20 }
    {
        Walk {
            cursor: Cursor::at(packet, 20),
        }
    }

    /// What is left of the packet; the place never lies beyond it.
    pub fn rest(&self) -> &'a [u8]
        ensures { result.now ≡ left self.now.cursor }
    {
        self.cursor.rest()
    }

    /// The attribute at the place, and goes past it; on the end and on a fault it stays put.
    // No `Iterator`: one that stays put at a fault would hand it out for ever, and a `for` over it would not end.
    pub fn next(&mut self) -> Result<Option<Attribute<'a>>, Fault>
        ensures bytes { self.new.cursor.bytes.now ≡ self.old.cursor.bytes.now }
        ensures read { viewed (drop (next_place result) self.old.cursor.bytes.now) result ≡ attribute_at self.old.cursor.place (left self.old.cursor) }
        ensures place { self.new.cursor.place ≡ gone self.old.cursor.place result }
        ensures onward { Onward self.old.cursor.place (length self.old.cursor.bytes.now) result }
    {
        let found = attribute_at(self.cursor);
        if let Ok(Some(attribute)) = found {
            self.cursor.place = attribute.end();
        }
        found
    }
}
