//! Event messages as values: header and attributes with their types, and the rules that every event meets.
#![tactic(auto)]

pub mod attribute_kind;
pub mod attributes;
pub mod bcid_wire;
pub mod check;
pub mod element_type;
pub mod event;
pub mod event_kind;
pub mod header;
pub mod header_wire;
pub mod keeping;
pub mod media_alive;
pub mod name;
mod profile;
pub mod unknown_number;
pub mod value_wire;
