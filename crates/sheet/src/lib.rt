//! A sheet: one hull and its lines, over memory that the caller lends.
#![tactic(auto)]

pub mod call;
pub mod line;
pub mod sheet;
