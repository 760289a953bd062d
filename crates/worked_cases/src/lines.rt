//! Cases from standard input, each a line `packet HEX` or `spool HEX` with a comment from `#` on.
use crate::answers::{show_packet, show_spool};
use hex::FromHexError;
use std::alloc::{AllocError, Global};
use std::io;

/// What a line gives.
#[derive(Drop)]
enum Delivery {
    Packet(Vec<u8>),
    Spool(Vec<u8>),
}

/// Why a line gives nothing.
#[derive(Clone, Copy)]
enum LineError {
    Unreadable,
    NoMemory(AllocError),
}

impl From<FromHexError> for LineError {
    fn from(_: FromHexError) -> LineError {
        LineError::Unreadable
    }
}

impl From<AllocError> for LineError {
    fn from(e: AllocError) -> LineError {
        LineError::NoMemory(e)
    }
}

// Judged before memory is made: a line that is none takes none, however long it is.
fn decode(heap: Global, digits: &str) -> Result<Vec<u8>, LineError> {
    if !digits.bytes().all(|b| b.is_ascii_hexdigit()) {
        return Err(LineError::Unreadable);
    }
    let mut bytes = Vec::new(heap);
    bytes.resize(digits.len() / 2, 0)?;
    hex::decode_to_slice(digits, &mut bytes)?;
    Ok(bytes)
}

// None of an empty line.
fn read(heap: Global, text: &str) -> Result<Option<Delivery>, LineError> {
    if text.is_empty() {
        return Ok(None);
    }
    if let Some(digits) = text.strip_prefix("packet") {
        return Ok(Some(Delivery::Packet(decode(heap, digits.trim())?)));
    }
    if let Some(digits) = text.strip_prefix("spool") {
        return Ok(Some(Delivery::Spool(decode(heap, digits.trim())?)));
    }
    Err(LineError::Unreadable)
}

fn show_delivery(rt: &HostRuntime, delivery: &Delivery, comment: &str) -> io::Result<()> {
    match delivery {
        Delivery::Packet(bytes) => {
            println!(rt; "packet of {} bytes: {comment}", bytes.len())?;
            show_packet(rt, bytes)
        }
        Delivery::Spool(bytes) => {
            println!(rt; "spool of {} bytes: {comment}", bytes.len())?;
            show_spool(rt, bytes)
        }
    }
}

fn show_line(rt: &HostRuntime, line: &str) -> io::Result<()> {
    let (text, comment) = line.split_once("#").unwrap_or((line, ""));
    let comment = comment.trim();
    match read(rt.alloc(), text.trim()) {
        Ok(Some(delivery)) => show_delivery(rt, &delivery, comment),
        Ok(None) => Ok(()),
        Err(LineError::Unreadable) => println!(rt;
            "a line that is neither packet nor spool: {comment}"
        ),
        Err(LineError::NoMemory(e)) => Err(e.into()),
    }
}

pub fn show_lines(rt: &HostRuntime) -> io::Result<()> {
    for line in rt.lines(rt.alloc()) {
        show_line(rt, line?.as_str())?;
    }
    Ok(())
}
