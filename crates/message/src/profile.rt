//! The profile: what each kind of event must have.
ghost use Rattle.std.specs.Prelude.{◌≡◌, true, false, MatchResult};
ghost use Rattle.refusal.specs.declared.Fault.TheVariants.{MandatoryMissing};
ghost use Rattle.message.specs.Rules.{complete};
ghost use Rattle.message.specs.Kinds.{event_number};

use crate::attributes::Attributes;
use crate::event_kind::EventKind;
use refusal::Fault;

// `let Some(_) = .. else` for each attribute is a rule of this project: every refusal shows which one it asked for.
/// That an event of a kind, whose header stands at `at`, has what it must have.
pub(crate) fn has_mandatory(kind: EventKind, a: &Attributes, at: usize) -> Result<(), Fault>
    ensures { MatchResult result (λ _. complete (event_number kind) a.now ≡ true) (λ f. (complete (event_number kind) a.now ≡ false) × (f ≡ MandatoryMissing at)) }
{
    let missing = Fault::MandatoryMissing { at };
    match kind {
        EventKind::SignalingStart => {
            let Some(_) = a.endpoint_name else {
                return Err(missing);
            };
            let Some(_) = a.called_party_number else {
                return Err(missing);
            };
            let Some(_) = a.routing_number else {
                return Err(missing);
            };
            let Some(_) = a.direction else {
                return Err(missing);
            };
        }
        EventKind::QosReserve | EventKind::QosCommit => {
            let Some(_) = a.udp_port else {
                return Err(missing);
            };
            let Some(_) = a.service_flow else {
                return Err(missing);
            };
            let Some(_) = a.flow_direction else {
                return Err(missing);
            };
        }
        EventKind::QosRelease => {
            let Some(_) = a.service_flow else {
                return Err(missing);
            };
            let Some(_) = a.flow_direction else {
                return Err(missing);
            };
        }
        EventKind::CallAnswer => {
            let Some(_) = a.charge_number else {
                return Err(missing);
            };
        }
        EventKind::CallDisconnect => {
            let Some(_) = a.termination_cause else {
                return Err(missing);
            };
        }
        EventKind::TimeChange => {
            let Some(_) = a.time_adjustment else {
                return Err(missing);
            };
        }
        EventKind::SignalingStop | EventKind::MediaAlive => {}
    }
    Ok(())
}
