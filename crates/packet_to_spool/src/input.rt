//! Hexadecimal text from standard input: white space and comments from `#` to the end of a line are left out.
use crate::text::Text;
use std::io::Read;
use std::{fmt, io};
use wire::Buffer;

/// How many bytes are taken at most, which is more than a packet may have.
const MOST: usize = 4200;

/// Why reading ended before the text did.
#[derive(Clone, Copy)]
pub enum Stop {
    BadDigit { byte: u8, line: u64 },
    LoneDigit,
    Full,
}

impl fmt::Display for Stop {
    fn fmt<W: fmt::Write>(&self, f: &mut fmt::Formatter<W>) -> fmt::Result {
        match self {
            Stop::BadDigit { byte, line } => write!(
                f,
                "`{}` (0x{byte:02x}) in line {line} is no hexadecimal digit.",
                Text(&[*byte])
            ),
            Stop::LoneDigit => write!(
                f,
                "the last digit has no other to make a byte with, and is left out."
            ),
            Stop::Full => write!(f, "no more than {MOST} bytes are taken."),
        }
    }
}

/// What was read, up to the end or to what stopped it.
#[derive(Drop)]
pub struct Hexadecimal {
    pub bytes: Buffer<MOST>,
    pub ending: Result<(), Stop>,
}

/// Takes text in, a byte at a time.
#[derive(Drop)]
struct Decoder {
    bytes: Buffer<MOST>,
    /// The first digit of a byte, until the second is there.
    high: Option<u8>,
    line: u64,
    /// Two states with no value beside them.
    in_comment: bool,
}

impl Decoder {
    fn new() -> Decoder {
        Decoder {
            bytes: Buffer::new(),
            high: None,
            line: 1,
            in_comment: false,
        }
    }

    fn take_all(&mut self, text: &[u8]) -> Result<(), Stop> {
        for byte in text {
            if self.is_digit_due(*byte) {
                self.take_digit(*byte)?;
            }
        }
        Ok(())
    }

    // Whether a byte must be a digit: no others stand outside white space and comments. What a comment holds is passed over first,
    // since it is the most of a text that has them.
    fn is_digit_due(&mut self, byte: u8) -> bool {
        match byte {
            _ if self.in_comment && byte != b'\n' => false,
            b' ' | b'\t' | b'\r' => false,
            b'\n' => {
                self.line = self.line.saturating_add(1);
                self.in_comment = false;
                false
            }
            b'#' => {
                self.in_comment = true;
                false
            }
            _ => true,
        }
    }

    fn take_digit(&mut self, byte: u8) -> Result<(), Stop> {
        let line = self.line;
        let digit = char::from(byte)
            .to_digit(16)
            .ok_or(Stop::BadDigit { byte, line })? as u8;
        match self.high.take() {
            None => self.high = Some(digit),
            Some(high) => self.push(high << 4 | digit)?,
        }
        Ok(())
    }

    fn push(&mut self, byte: u8) -> Result<(), Stop> {
        if self.bytes.as_bytes().len() == MOST {
            return Err(Stop::Full);
        }
        self.bytes.push(&[byte]);
        Ok(())
    }

    fn finish(&self) -> Result<(), Stop> {
        match self.high {
            Some(_) => Err(Stop::LoneDigit),
            None => Ok(()),
        }
    }
}

// Takes standard input in, up to its end or to what stops it. By chunks, and no `BufReader::bytes`: an answer for each byte took
// two to five times the time, and the heap.
fn read_all(rt: &HostRuntime, decoder: &mut Decoder) -> io::Result<Result<(), Stop>> {
    let mut stdin = rt.stdin();
    let mut chunk = [0; 512];
    for _ in 0..u64::MAX {
        let count = stdin.read(&mut chunk)?;
        if count == 0 {
            break;
        }
        if let Err(stop) = decoder.take_all(&chunk[..count]) {
            return Ok(Err(stop));
        }
    }
    Ok(decoder.finish())
}

/// Reads standard input.
pub fn read_hex(rt: &HostRuntime) -> io::Result<Hexadecimal> {
    let mut decoder = Decoder::new();
    let ending = read_all(rt, &mut decoder)?;
    Ok(Hexadecimal {
        bytes: decoder.bytes,
        ending,
    })
}
