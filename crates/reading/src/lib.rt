//! Events read from packets and spools.
#![tactic(auto)]

mod admission;
pub mod attribute;
pub mod cursor;
mod events;
pub mod feed;
pub mod feeds;
pub mod framing;
pub mod packet;
pub mod placed;
pub mod spool;
pub mod token;
pub mod walk;
