//! Stocks of sizes.
#![tactic(auto)]

pub mod build_up;
pub mod row;
pub mod rows;
