//! What each member of a list needs by itself.
#![tactic(auto)]

pub mod book;
pub mod fault;
pub mod given;
pub mod reply;
