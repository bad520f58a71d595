//! What all rule books share: rounding up, the end of sizes, bending, panels under pressure, and the rules that clauses make.
#![tactic(auto)]

pub mod book;
pub mod kind;
pub mod panel;
pub mod rounding;
