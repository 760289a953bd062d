//! Bytes, as they are printed.
use std::fmt;

/// Text, with a dot for each byte that cannot be printed.
#[derive(Drop)]
pub struct Text<'a>(pub &'a [u8]);

impl fmt::Display for Text<'_> {
    fn fmt<W: fmt::Write>(&self, f: &mut fmt::Formatter<W>) -> fmt::Result {
        for b in self.0 {
            f.write_char(match *b {
                b' '..=b'~' => char::from(*b),
                _ => '.',
            })?;
        }
        Ok(())
    }
}

/// Text in quotes.
#[derive(Drop)]
pub struct Quoted<'a>(pub &'a [u8]);

impl fmt::Display for Quoted<'_> {
    fn fmt<W: fmt::Write>(&self, f: &mut fmt::Formatter<W>) -> fmt::Result {
        write!(f, "\"{}\"", Text(self.0))
    }
}
