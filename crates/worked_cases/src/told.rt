//! A refusal by number, place and offset.
use refusal::{Fault, Told};
use std::fmt;

// `packet_to_spool` tells a refusal in other words, from the same `told`.
#[derive(Clone, Copy)]
pub struct Refused(pub Fault);

impl fmt::Display for Refused {
    fn fmt<W: fmt::Write>(&self, f: &mut fmt::Formatter<W>) -> fmt::Result {
        let Told {
            number,
            place,
            offset,
        } = self.0.told();
        write!(f, "refused with {number}, {place}, {offset}")
    }
}
