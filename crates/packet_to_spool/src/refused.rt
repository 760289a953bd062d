//! A refusal in words.
use refusal::{Fault, Told};
use std::fmt;

// `worked_cases` tells a refusal in other words, from the same `told`.
#[derive(Clone, Copy)]
pub struct Refused(pub Fault);

impl fmt::Display for Refused {
    fn fmt<W: fmt::Write>(&self, f: &mut fmt::Formatter<W>) -> fmt::Result {
        let fault = self.0;
        let Told {
            number,
            place,
            offset,
        } = fault.told();
        write!(
            f,
            "refused with {number} in the place {place}, at offset {offset}: {fault}."
        )
    }
}
