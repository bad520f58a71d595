//! Records: the format in which offices exchange sheets. What it looks like is told in docs/RECORDS.md.
#![tactic(auto)]

mod calls;
pub mod command;
pub mod placed;
pub mod reader;
pub mod reading;
