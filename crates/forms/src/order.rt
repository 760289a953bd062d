//! The order of events in a book.
ghost use Rattle.std.specs.Prelude.{◌≡◌};
ghost use Rattle.std.specs.Cmp.Lexicographic.{slice_cmp};
ghost use Rattle.forms.specs.Forms.{form};
ghost use Rattle.forms.specs.Order.{order as by_parts};
ghost use Rattle.std.specs.Ordering.{nat_cmp};

use crate::encoding::Encoding;
use crate::form::Form;
use message::event::Event;
use std::cmp::Ordering;
use wire::FixedWidth;

fn compare_forms(a: &Event, b: &Event) -> Ordering
    ensures { result ≡ slice_cmp nat_cmp (form a.now) (form b.now) }
{
    let a = Form::of(Encoding::Spool, a);
    let b = Form::of(Encoding::Spool, b);
    a.as_bytes().cmp(b.as_bytes())
}

/// By BCID, then by Event_Time, then by spool form, each by its bytes. The forms are made only where the rest ties.
// BCIDs by their bytes, as the definition compares them: by a derived order of their fields the same would read no plainer.
// Not an `impl Ord for Event`: `Event` belongs to a crate below, and its order needs the forms made here.
#[tactic(auto, unfolding(crate::specs::Order::order))]
pub fn compare(a: &Event, b: &Event) -> Ordering
    ensures { result ≡ by_parts a.now b.now }
{
    a.header
        .bcid
        .to_bytes()
        .cmp(&b.header.bcid.to_bytes())
        .then_with(|| a.header.event_time.cmp(&b.header.event_time))
        .then_with(|| compare_forms(a, b))
}
