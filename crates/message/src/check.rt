//! The check of an event as a whole.
ghost use Rattle.std.specs.Prelude.{◌≡◌, true, length};
ghost use Rattle.message.specs.Headers.{header_typed};
ghost use Rattle.message.specs.Values.{others, attributes_typed};
ghost use Rattle.message.specs.Rules.{well_formed};
ghost use Rattle.message.specs.Checks.{checked};

use crate::attributes::Attributes;
use crate::element_type::ElementType;
use crate::event::Event;
use crate::event_kind::EventKind;
use crate::header::Header;
use crate::profile::has_mandatory;
use refusal::Fault;

impl Header {
    /// Whether its fields have the forms that they must have.
    #[tactic(auto, unfolding(crate::specs::Rules::well_formed))]
    fn is_well_formed(&self) -> bool
        ensures { result ≡ well_formed self.now }
    {
        ElementType::try_from(self.element_type).is_ok()
            && self.bcid.element_id.is_well_formed()
            && self.bcid.time_zone.is_well_formed()
            && self.element_id.is_well_formed()
            && self.time_zone.is_well_formed()
            && self.event_time.is_well_formed()
    }
}

/// The event that a header, which stood at `at`, and as many attributes as it counts make.
pub fn check_event(header: Header, attributes: Attributes, at: usize) -> Result<Event, Fault>
    requires header { header_typed header ≡ true }
    requires attributes { attributes_typed attributes ≡ true }
    requires count { length (others attributes) ≡ header.attribute_count }
    ensures { result ≡ checked at header attributes }
{
    let Ok(kind) = EventKind::try_from(header.kind) else {
        return Err(Fault::UnknownKind { at });
    };
    if !header.is_well_formed() {
        return Err(Fault::HeaderForm { at });
    }
    has_mandatory(kind, &attributes, at)?;
    Ok(Event { header, attributes })
}
