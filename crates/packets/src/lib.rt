//! Accounting-Requests: taken up, and spent once.
#![tactic(auto)]

mod checks;
mod taken_up;

pub use taken_up::TakenUp;
