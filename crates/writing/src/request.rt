//! An event as an Accounting-Request of its own.
ghost use Rattle.std.specs.Prelude.{◌≡◌, length};
ghost use Rattle.forms.specs.declared.encoding.Encoding.TheVariants.{Packet};
ghost use Rattle.reading.specs.Laws.{ReadBack};
ghost use Rattle.writing.specs.Outputs.{answer, output};
ghost use Rattle.writing.specs.Requests.{attributes as request_attributes, opening, authenticator, sealed, request};
ghost use Rattle.writing.specs.Returns.{Returns};

use crate::spool::write_bytes;
use digest::digest;
use forms::encoding::Encoding;
use forms::form::Form;
use message::event::Event;
use refusal::Fault;
use wire::{Buffer, FixedWidth};

/// What a packet is made of.
#[derive(Drop)]
struct Request<'a> {
    identifier: u8,
    attributes: Buffer<380>,
    secret: &'a [u8; 16],
}

impl<'a> Request<'a> {
    // Code, identifier and Length.
    #[tactic(auto, unfolding(wire::specs::Octets::two))]
    fn opening(&self) -> [u8; 4]
        ensures { result ≡ opening self.now.identifier self.now.attributes }
    {
        let length = 20 + self.attributes.as_bytes().len() as u16;
        let [high, low] = length.to_be_bytes();
        [4, self.identifier, high, low]
    }

    // The Request Authenticator: the digest is lent its sixteen bytes alone.
    fn authenticator(&self) -> [u8; 16]
        ensures { result ≡ authenticator self.now.identifier self.now.attributes self.now.secret.now }
    {
        let secret = self.secret;
        let mut message = Buffer::<416>::new();
        message.push(&self.opening());
        message.push(&[0; 16]);
        message.push(self.attributes.as_bytes());
        message.push(secret);
        let mut code = [0; 16];
        digest(message.as_bytes(), &mut code);
        code
    }

    fn to_bytes(&self) -> Buffer<400>
        ensures { result ≡ sealed self.now.identifier self.now.attributes self.now.secret.now }
    {
        let mut packet = Buffer::new();
        packet.push(&self.opening());
        packet.push(&self.authenticator());
        packet.push(self.attributes.as_bytes());
        packet
    }
}

// 38 bytes, then at most 342 of the event.
fn make_attributes(event: &Event, address: &[u8; 4]) -> Buffer<380>
    ensures { result ≡ request_attributes event.now address.now }
{
    let mut out = Buffer::new();
    out.push(&[4, 6]);
    out.push(address);
    out.push(&[40, 6, 0, 0, 0, 3]);
    out.push(&[44, 26]);
    out.push(&event.header.bcid.to_bytes());
    out.push(Form::of(Encoding::Packet, event).as_bytes());
    out
}

/// Writes an event as a packet of its own, with its Request Authenticator, and answers its length. It is taken up and
/// read back, and its attributes are, at every offset of any packet with anything behind them.
#[tactic(auto, using(reading::proofs::Again::reads_again, crate::proofs::Resent::comes_back), unfolding(crate::specs::Requests::request))]
pub fn write_packet(
    event: &Event,
    identifier: u8,
    address: &[u8; 4],
    secret: &[u8; 16],
    out: &mut [u8],
) -> Result<usize, Fault>
    ensures answer { result ≡ answer (length out.old) (request event.now identifier address.now secret.now) }
    ensures bytes { out.new ≡ output out.old (request event.now identifier address.now secret.now) }
    ensures placed { ReadBack Packet event.now }
    ensures back { Returns event.now (request event.now identifier address.now secret.now) }
{
    let request = Request {
        identifier,
        attributes: make_attributes(event, address),
        secret,
    };
    write_bytes(request.to_bytes().as_bytes(), out)
}
