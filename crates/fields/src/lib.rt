//! The text fields of a header: Element_ID, Time_Zone and Event_Time, with the forms that they must have.
#![tactic(auto)]

pub mod calendar;
mod clock;
mod date;
mod digits;
pub mod texts;
