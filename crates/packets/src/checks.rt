//! The first checks of a packet.
ghost use Rattle.std.specs.Prelude.{◌≡◌};
ghost use Rattle.packets.specs.Packets.{taken, held_packet};

use crate::taken_up::TakenUp;
use refusal::Fault;
use wire::FixedWidth;

impl<'a> TakenUp<'a> {
    /// Checks the number of bytes, the code and Length; what lies after Length is ignored.
    #[tactic(auto, unfolding(crate::specs::Packets::taken))]
    pub fn take_up(bytes: &'a [u8]) -> Result<TakenUp<'a>, Fault>
        ensures { held_packet result ≡ taken bytes.now }
    {
        if bytes.len() < 20 || bytes.len() > 4095 {
            return Err(Fault::PacketSize);
        }
        if bytes[0] != 4 {
            return Err(Fault::PacketCode);
        }
        let length = usize::from(u16::read(bytes, 2));
        if length < 20 || bytes.len() < length {
            return Err(Fault::PacketLength);
        }
        Ok(TakenUp {
            packet: &bytes[0..length],
        })
    }
}
