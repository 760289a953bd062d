//! An event message that meets every rule.
ghost use Rattle.std.specs.Prelude.{◌≡◌, true};
ghost use Rattle.message.specs.Rules.{sound};
ghost use Rattle.message.specs.Kinds.{event_number, element_number};

use crate::attributes::Attributes;
use crate::element_type::ElementType;
use crate::event_kind::EventKind;
use crate::header::Header;

/// Its type carries the rules: header form, a kind of the profile, the mandatory attributes, and a right count.
#[derive(Clone, Copy, PartialEq, Eq, Debug)]
pub struct Event {
    pub header: Header,
    pub attributes: Attributes,
    ghost sound: { sound header attributes ≡ true },
}

impl Event {
    /// The kind that its header tells.
    #[tactic(auto, using(crate::proofs::Checked::kind_listed))]
    pub fn kind(&self) -> EventKind
        ensures { event_number result ≡ self.now.header.kind }
    {
        match EventKind::try_from(self.header.kind) {
            Ok(kind) => kind,
            Err(_) => unreachable(),
        }
    }

    /// The type of element that sent it.
    #[tactic(auto, using(crate::proofs::Checked::element_told))]
    pub fn element_type(&self) -> ElementType
        ensures { element_number result ≡ self.now.header.element_type }
    {
        match ElementType::try_from(self.header.element_type) {
            Ok(element) => element,
            Err(_) => unreachable(),
        }
    }
}
