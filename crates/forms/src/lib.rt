//! Events in bytes, as items of a spool and as vendor attributes of a packet, and the order of events.
#![tactic(auto)]

mod builder;
pub mod encoding;
pub mod form;
pub mod order;
