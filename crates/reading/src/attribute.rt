//! One attribute of a packet.

/// A part of the packet, with the place of its first byte and the place behind it. Each case holds its number as a byte, since
/// any may stand there, and its own part of the packet, as a rule of this project has it.
#[derive(Clone, Copy)]
pub enum Attribute<'a> {
    /// A vendor attribute of CableLabs, with its own number and value.
    CableLabs {
        number: u8,
        value: &'a [u8],
        at: usize,
        next: usize,
    },
    /// Any other, with its type and all that follows its length.
    Other {
        kind: u8,
        value: &'a [u8],
        at: usize,
        next: usize,
    },
}
