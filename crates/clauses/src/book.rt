//! A rule book, by its clauses.
ghost use Rattle.std.specs.Prelude.{◌≡◌};
ghost use Rattle.clauses.specs.Clauses.{Clauses, Rising, rules_by, law_by};

use crate::rounding::end_size;
use terms::book::RuleBook;
use terms::entry::Entry;
use terms::hull::Hull;

/// What the clauses of a book say of a line that fits, sizes not yet ended.
pub trait Clauses {
    /// the number by which a user chooses the book
    const NUMBER: u8;

    ghost clauses: { Clauses };

    // Every pull rises. It stands above the functions so that the book's own law can cite it.
    ghost rising: { Rising clauses };

    /// Whether the book has a rule for the line on this hull.
    fn fits(hull: Hull, line: Entry) -> bool
        ensures { result ≡ clauses.fits hull line };

    /// Whether the line is a stiffener.
    fn is_stiffener(line: Entry) -> bool
        ensures { result ≡ clauses.stiffener line };

    /// The size that the line needs by itself.
    fn own(hull: Hull, line: Entry) -> u128
        ensures { result ≡ clauses.own hull line };

    /// The size to which a touching line of this size obliges the line.
    fn pull(line: Entry, neighbour: Entry, size: u16) -> u128
        ensures { result ≡ clauses.pull line neighbour size };
}

/// The rule book that clauses make: sizes end at 60,001, and a line that does not fit counts as plate, with 0 for its sizes.
#[derive(Clone, Copy)]
pub struct ByClauses<C>(pub C);

impl<C: Clauses> RuleBook for ByClauses<C> {
    const NUMBER: u8 = C::NUMBER;

    ghost meaning = { λ _. rules_by C.clauses };

    ghost law = { λ _. law_by C.clauses C.rising };

    fn fits(&mut self, hull: Hull, line: Entry) -> bool {
        C::fits(hull, line)
    }

    fn is_plate(&mut self, hull: Hull, line: Entry) -> bool {
        !C::fits(hull, line) || !C::is_stiffener(line)
    }

    fn own_size(&mut self, hull: Hull, line: Entry) -> u16 {
        if C::fits(hull, line) {
            end_size(C::own(hull, line))
        } else {
            0
        }
    }

    fn pull(&mut self, hull: Hull, line: Entry, neighbour: Entry, size: u16) -> u16 {
        if C::fits(hull, line) {
            end_size(C::pull(line, neighbour, size))
        } else {
            0
        }
    }
}
