//! A Media_Alive, written into buffers that are too small by a byte, and just large enough.
ghost use Rattle.std.specs.Prelude.{◌≤◌};

use crate::told::Refused;
use message::event::Event;
use refusal::Fault;
use std::io;
use writing::request::write_packet;
use writing::spool::write_spool;

/// What the buffers hold before.
const FILLING: u8 = 0xee;

const SECRET: [u8; 16] = *b"sixteen byte key";

fn show_answer(rt: &HostRuntime, answer: Result<usize, Fault>, buffer: &[u8]) -> io::Result<()> {
    let size = buffer.len();
    match answer {
        Ok(length) => println!(rt; "    into {size} bytes: {length} are written"),
        Err(fault) => {
            let state = if buffer.iter().all(|b| *b == FILLING) {
                "untouched"
            } else {
                "TOUCHED"
            };
            println!(rt;
                "    into {size} bytes: {}, and the buffer is {state}",
                Refused(fault)
            )
        }
    }
}

// Writes into N bytes.
fn show_written<const N: usize, F: Fn(&mut [u8]) -> Result<usize, Fault>>(
    rt: &HostRuntime,
    write: &F,
) -> io::Result<()>
    requires small { N ≤ 142 }
    requires any { F.IsAlwaysCallable write.now }
{
    let mut buffer = [FILLING; N];
    let answer = write(&mut buffer);
    show_answer(rt, answer, &buffer)
}

fn show_spools(rt: &HostRuntime, event: &Event) -> io::Result<()> {
    println!(rt; "A Media_Alive written as a spool")?;
    let write = |out: &mut [u8]| write_spool(event, out);
    show_written::<76, _>(rt, &write)?;
    show_written::<77, _>(rt, &write)
}

fn show_packets(rt: &HostRuntime, event: &Event) -> io::Result<()> {
    println!(rt; "A Media_Alive written as a packet")?;
    let write = |out: &mut [u8]| write_packet(event, 7, &[10, 0, 0, 1], &SECRET, out);
    show_written::<141, _>(rt, &write)?;
    show_written::<142, _>(rt, &write)
}

pub fn show_outputs(rt: &HostRuntime) -> io::Result<()> {
    let event = Event::media_alive();
    show_spools(rt, &event)?;
    show_packets(rt, &event)
}
