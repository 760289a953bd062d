//! Events written as spools and as packets.
#![tactic(auto)]

pub mod request;
pub mod spool;
