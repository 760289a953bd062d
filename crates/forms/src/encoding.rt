//! The two forms in which attributes travel.

#[derive(Clone, Copy, PartialEq, Eq, Debug)]
pub enum Encoding {
    /// Items of a spool: a kind, then a body whose length the kind fixes.
    Spool,
    /// Vendor attributes of a RADIUS packet.
    Packet,
}
