//! One attribute of an event as it stands in the bytes, before it is looked at.
ghost use Rattle.std.specs.Prelude.{◌≡◌, true, false, MatchResult};
ghost use Rattle.refusal.specs.declared.Fault.TheVariants.{UnknownAttribute};
ghost use Rattle.message.specs.Kinds.{number_of};
ghost use Rattle.reading.specs.Events.{known};

use message::attribute_kind::AttributeKind;
use refusal::Fault;

#[derive(Clone, Copy)]
pub struct Token<'a> {
    /// The place of its first byte.
    pub at: usize,
    /// A byte and no kind: it is looked at later, and an unknown one is refused then.
    pub number: u8,
    pub body: &'a [u8],
    /// The place behind it.
    pub next: usize,
}

impl<'a> Token<'a> {
    /// What its number says.
    pub(crate) fn kind(&self) -> Result<AttributeKind, Fault>
        ensures { MatchResult result (λ k. (number_of k ≡ self.now.number) × (known self.now.number ≡ true)) (λ f. (known self.now.number ≡ false) × (f ≡ UnknownAttribute self.now.at)) }
    {
        match AttributeKind::try_from(self.number) {
            Ok(kind) => Ok(kind),
            Err(_) => Err(Fault::UnknownAttribute { at: self.at }),
        }
    }
}
