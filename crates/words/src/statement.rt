//! What a line of a text sheet says.
use crate::series::Series;
use terms::entry::Entry;
use terms::hull::Hull;

/// One statement of a text sheet.
#[derive(Clone, Copy, PartialEq, Eq, Debug)]
pub enum Statement {
    /// a blank line, or only a comment: a statement like the others and no absence of one, since every line is taken and answered
    Nothing,
    /// the rule book with this number
    Book(u8),
    Plates(Series),
    Stiffeners(Series),
    Hull(Hull),
    Enter(Entry),
}
