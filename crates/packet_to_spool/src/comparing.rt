//! Events that were written, against those that were read back.
use crate::feeding::{Met, Reading};
use crate::refused::Refused;
use std::io;

fn show_pairs(rt: &HostRuntime, written: &[Met], read: &[Met]) -> io::Result<()> {
    for (number, (a, b)) in (1..).zip(written.iter().zip(read)) {
        let verdict = if a.event == b.event {
            "the same, byte for byte"
        } else {
            "DIFFERENT"
        };
        let kind = b.event.kind();
        let at = b.at;
        println!(rt; "  event {number}, {kind}, its header at {at}: {verdict}")?;
    }
    Ok(())
}

fn are_same(written: &[Met], read: &[Met]) -> bool {
    let events = written.iter().map(|met| &met.event);
    events.eq(read.iter().map(|met| &met.event))
}

/// Compares event by event, and tells the end.
pub fn compare_all(rt: &HostRuntime, written: &[Met], again: &Reading) -> io::Result<()> {
    show_pairs(rt, written, &again.met)?;
    match again.ending {
        Ok(()) => println!(rt; "  then it ends")?,
        Err(fault) => println!(rt; "  then it is {}", Refused(fault))?,
    }
    let expected = written.len();
    let count = again.met.len();
    if are_same(written, &again.met) {
        println!(rt; "  {count} of {expected} events came back, each the same as before")
    } else {
        println!(rt; "  {count} of {expected} events came back, and they are DIFFERENT")
    }
}
