//! The lines of a sheet, which stand in the crate of designs, below this one.
pub use design::line::Line;
