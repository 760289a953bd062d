//! The test suite of RFC 1321, A.5.
use digest::digest;
use std::io;

const SUITE: [&str; 7] = [
    "",
    "a",
    "abc",
    "message digest",
    "abcdefghijklmnopqrstuvwxyz",
    "ABCDEFGHIJKLMNOPQRSTUVWXYZabcdefghijklmnopqrstuvwxyz0123456789",
    "12345678901234567890123456789012345678901234567890123456789012345678901234567890",
];

fn show_digest(rt: &HostRuntime, message: &str) -> io::Result<()> {
    let mut code = [0; 16];
    digest(message.as_bytes(), &mut code);
    println!(rt; "MD5 (\"{message}\") = {:032x}", u128::from_be_bytes(code))
}

pub fn show_digests(rt: &HostRuntime) -> io::Result<()> {
    println!(rt; "MD5 test suite:")?;
    for message in SUITE {
        show_digest(rt, message)?;
    }
    Ok(())
}
