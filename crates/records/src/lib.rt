//! Records worked out by hand, whole and damaged, read and written.
#![tactic(auto)]

#[cfg(test)]
mod damaged;
#[cfg(test)]
mod worked;
#[cfg(test)]
mod written;
