//! Designs: the lines of a sheet, the design basis that they are judged by, and what is lawful for them.
#![tactic(auto)]

pub mod basis;
pub mod check;
pub mod job;
pub mod line;
pub mod verdict;
