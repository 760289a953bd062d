//! Everything that a feed hands over.
use message::event::Event;
use reading::feeds::Feed;
use refusal::Fault;
use std::alloc::{AllocError, Global};

/// An event, with the offset of its header.
#[derive(Clone, Copy)]
pub struct Met {
    pub event: Event,
    pub at: usize,
}

/// The events before the end, or before a fault.
#[derive(Drop)]
pub struct Reading {
    pub met: Vec<Met>,
    pub ending: Result<(), Fault>,
}

/// Asks a feed until it ends. A loop, as wherever a feed is asked: it is no iterator, and each caller does another thing with an
/// event.
pub fn read_all<F: Feed>(heap: Global, feed: &mut F) -> Result<Reading, AllocError> {
    let mut met = Vec::new(heap);
    let ending = loop {
        let mut event = Event::media_alive();
        match feed.next(&mut event) {
            Ok(Some(at)) => met.push(Met { event, at })?,
            Ok(None) => break Ok(()),
            Err(fault) => break Err(fault),
        }
    };
    Ok(Reading { met, ending })
}
