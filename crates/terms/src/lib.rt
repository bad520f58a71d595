//! The vocabulary of scantling sheets: hulls, entered values, refusals, rule books and stocks.
#![tactic(auto)]

pub mod book;
pub mod entry;
pub mod ground;
pub mod hull;
pub mod hundredths;
pub mod limits;
pub mod refusal;
pub mod stock;
