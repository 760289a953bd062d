//! What stands before the attributes of a packet.
use std::io;
use wire::part;

pub fn show_front(rt: &HostRuntime, front: &[u8; 20]) -> io::Result<()> {
    let [code, identifier, high, low, ..] = *front;
    let length = u16::from_be_bytes([high, low]);
    let authenticator = u128::from_be_bytes(part(front, 4));
    println!(rt; "The packet is taken up.")?;
    println!(rt; "  code           {code}, an Accounting-Request")?;
    println!(rt; "  identifier     {identifier}")?;
    println!(rt; "  Length         {length}")?;
    println!(rt; "  authenticator  {authenticator:032x}\n")
}
