//! The kinds of members, by their numbers.
ghost use Rattle.std.specs.Prelude.{Some};
ghost use Rattle.clauses.specs.Kinds.{unknown_text};

use std::error::Error;
use std::fmt;

/// A number by which a book names no kind.
#[derive(Clone, Copy, PartialEq, Eq, Debug)]
pub struct UnknownKind(pub u8);

impl fmt::Display for UnknownKind {
    ghost output = { λ e. Some (unknown_text e) };

    fn fmt<W: fmt::Write>(&self, f: &mut fmt::Formatter<W>) -> fmt::Result {
        write!(f, "no kind has number {}", self.0)
    }
}

impl Error for UnknownKind {}
