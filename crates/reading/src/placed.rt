//! What was read, with the place behind it.
use message::attributes::Attributes;
use message::event::Event;

/// The attributes behind a header.
#[derive(Clone, Copy)]
pub struct Rest {
    pub attributes: Attributes,
    pub next: usize,
}

/// An event, with the place of its header.
#[derive(Clone, Copy)]
pub struct Placed {
    pub event: Event,
    pub at: usize,
    pub next: usize,
}
