//! A feed: the events still to come, each with the offset of its header, and how they end.
ghost use Rattle.std.specs.Prelude.{◌≡◌, ℕ, ◌^◌, ◌<◌, List, length};
ghost use Rattle.message.specs.declared.event.Event.{Event};
ghost use Rattle.reading.specs.Events.{Ending};
ghost use Rattle.reading.specs.Feeding.{handed, rest, placed};

use message::event::Event;
use refusal::Fault;

// No `Iterator`: a feed stays put at a fault, and hands an event over in a place that the caller lends.
pub trait Feed {
    /// The events still to come, each with the offset of its header.
    ghost coming: { Self → List (Event × ℕ) };

    /// What stands behind them.
    ghost ending: { Self → Ending };

    /// Hands over the first, drops it, and answers its offset. At the end, and at a fault, it stays put and leaves the place
    /// untouched.
    fn next(&mut self, place: &mut Event) -> Result<Option<usize>, Fault>
        ensures says { result ≡ handed (coming self.old) (ending self.old) }
        ensures drops { coming self.new ≡ rest (coming self.old) }
        ensures ending { ending self.new ≡ ending self.old }
        ensures hands { place.new ≡ placed (coming self.old) place.old };

    /// They are fewer than 2^60.
    ghost few: { (s : Self) → length (coming s) < 2 ^ 60 };
}
