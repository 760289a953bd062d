//! Laws about the definitions, each stated in the contract of a function that does nothing else.
#![tactic(auto)]

ghost use Rattle.message.specs.declared.event.Event.{Event};
ghost use Rattle.reading.specs.Laws.{FormTells, OrderTells, AnyOrder, CheckAlone, Lengths};
ghost use Rattle.laws.specs.Worked.{Worked};

/// Two events with the same spool form are the same.
#[tactic(auto, using(crate::proofs::Orders::form_tells))]
pub fn form_tells()
    ensures { FormTells }
{}

/// The order of events tells any two apart.
#[tactic(auto, using(crate::proofs::Orders::order_tells))]
pub fn order_tells()
    ensures { OrderTells }
{}

/// The order of a packet's counted attributes does not matter to the event.
#[tactic(auto, using(crate::proofs::Orders::any_order))]
pub fn any_order()
    ensures { AnyOrder }
{}

/// The check of an event looks at nothing but the event.
#[tactic(auto, using(crate::proofs::Orders::check_alone))]
pub fn check_alone()
    ensures { CheckAlone }
{}

/// An event takes 77 to 252 bytes in a spool.
pub fn lengths()
    ensures { (e : Event) → Lengths e }
{}

/// The worked cases.
#[tactic(auto, using(crate::proofs::Cases::worked))]
pub fn worked()
    ensures { Worked }
{}
