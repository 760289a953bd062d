//! A packet that passed the first checks.
ghost use Rattle.std.specs.Prelude.{◌≡◌, ◌≤◌, length, take};

/// It holds the packet's bytes up to its Length, and must be spent: read out or withheld.
pub struct TakenUp<'a> {
    pub(crate) packet: &'a [u8],
    ghost whole: { 20 ≤ length packet.now },
}

impl<'a> TakenUp<'a> {
    /// Its bytes, up to its Length.
    pub fn bytes(&self) -> &'a [u8]
        ensures { result.now ≡ self.now.packet.now }
    {
        self.packet
    }

    /// What stands before its attributes: code, identifier, Length and the authenticator.
    pub fn front(&self) -> &'a [u8; 20]
        ensures { result.now ≡ take 20 self.now.packet.now }
    {
        match self.packet.split_first_chunk::<20>() {
            Some((front, _)) => front,
            None => unreachable(),
        }
    }

    /// Spends it by handing out its bytes to be read.
    pub fn into_bytes(self) -> &'a [u8]
        ensures { result.now ≡ self.entry.packet.now }
    {
        let TakenUp { packet } = self;
        packet
    }

    /// Spends it without reading.
    pub fn withhold(self) {
        let TakenUp { packet: _ } = self;
    }
}
