//! Runs of calls on a sheet, and what holds of every one.
#![tactic(auto)]

pub mod back;
pub mod perform;
pub mod step;
