//! What is asked of a rule book.
ghost use Rattle.std.specs.Prelude.{◌≡◌};
ghost use Rattle.terms.specs.Rules.{Rules, Law};

use crate::entry::Entry;
use crate::hull::Hull;

/// A rule book. Its answers follow from its meaning, which no question changes, so that a book may keep count of what it
/// is asked; each question says so for itself, since a trait has no other place for it. Hull and line come one by one, here and in what is asked of a design
/// basis: many lines have one hull, and a pair of the two would be made anew for each question.
pub trait RuleBook {
    /// the number by which a user chooses the book
    const NUMBER: u8;

    ghost meaning: { Self → Rules };

    ghost law: { (b : Self) → Law (meaning b) };

    /// Whether the book has a rule for the line on this hull.
    fn fits(&mut self, hull: Hull, line: Entry) -> bool
        ensures value { result ≡ (meaning self.old).fits hull line }
        ensures same { meaning self.new ≡ meaning self.old };

    /// Whether the line is plate, and not a stiffener.
    fn is_plate(&mut self, hull: Hull, line: Entry) -> bool
        ensures value { result ≡ (meaning self.old).plate hull line }
        ensures same { meaning self.new ≡ meaning self.old };

    /// The size that the line needs by itself.
    fn own_size(&mut self, hull: Hull, line: Entry) -> u16
        ensures value { result ≡ (meaning self.old).own hull line }
        ensures same { meaning self.new ≡ meaning self.old };

    /// The size to which a touching line of this size obliges the line.
    fn pull(&mut self, hull: Hull, line: Entry, neighbour: Entry, size: u16) -> u16
        ensures value { result ≡ (meaning self.old).pull hull line neighbour size }
        ensures same { meaning self.new ≡ meaning self.old };
}
