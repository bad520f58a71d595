//! What one member needs by itself, from any rule book and two stocks.
#![tactic(auto)]

pub mod need;
