//! The design basis: a rule book and two stocks.
ghost use Rattle.std.specs.Prelude.{◌≡◌, ℕ, List, [], ◌∷◌};
ghost use Rattle.terms.specs.Stocks.{AtLeast};
ghost use Rattle.design.specs.Settings.{Setting, Sound, set_by, stock_for};

use terms::book::RuleBook;
use terms::entry::Entry;
use terms::hull::Hull;
use terms::stock::Stock;

/// What lines are designed by: a rule book, and for each line the stock that it takes its size from. No question changes it,
/// which each says for itself, since a trait has no other place for it. So does each function that is lent a basis: a type speaks of one state, and this is of two.
/// Three of the questions are a book's and stand here again, since whoever designs asks the basis alone: were a basis a book too, it would need a number, and a law
/// that its setting has the rules that it means as a book.
pub trait DesignBasis {
    ghost setting: { Self → Setting };

    ghost sound: { (d : Self) → Sound (setting d) };

    // The names of what lent its parts, so that each is known to mean the same once the basis has ended.
    ghost lenders: { Self → List ℕ };

    /// Whether the book has a rule for the line on this hull.
    fn fits(&mut self, hull: Hull, line: Entry) -> bool
        ensures value { result ≡ (setting self.old).rules.fits hull line }
        ensures same { setting self.new ≡ setting self.old }
        ensures lent { lenders self.new ≡ lenders self.old };

    /// The size that the line needs by itself.
    fn own_size(&mut self, hull: Hull, line: Entry) -> u16
        ensures value { result ≡ (setting self.old).rules.own hull line }
        ensures same { setting self.new ≡ setting self.old }
        ensures lent { lenders self.new ≡ lenders self.old };

    /// The size to which a touching line of this size obliges the line.
    fn pull(&mut self, hull: Hull, line: Entry, neighbour: Entry, size: u16) -> u16
        ensures value { result ≡ (setting self.old).rules.pull hull line neighbour size }
        ensures same { setting self.new ≡ setting self.old }
        ensures lent { lenders self.new ≡ lenders self.old };

    /// Whether the size is in the line's stock.
    fn is_stocked(&mut self, hull: Hull, line: Entry, size: u16) -> bool
        ensures value { result ≡ stock_for (setting self.old) hull line size }
        ensures same { setting self.new ≡ setting self.old }
        ensures lent { lenders self.new ≡ lenders self.old };

    /// The smallest size in the line's stock at or above `floor`; none exactly when there is none.
    fn next_size(&mut self, hull: Hull, line: Entry, floor: u16) -> Option<u16>
        ensures value { AtLeast (stock_for (setting self.old) hull line) floor result }
        ensures same { setting self.new ≡ setting self.old }
        ensures lent { lenders self.new ≡ lenders self.old };
}

/// A rule book, a stock of plates and a stock of stiffeners, each lent.
#[derive(Drop)]
pub struct Basis<'b, 'p, 's, B, P, S> {
    pub book: &'b mut B,
    pub plates: &'p mut P,
    pub stiffeners: &'s mut S,
}

impl<B: RuleBook, P: Stock, S: Stock> DesignBasis for Basis<'_, '_, '_, B, P, S> {
    ghost setting = { λ d. set_by (B.RuleBook.meaning d.book.now) (P.Stock.members d.plates.now) (S.Stock.members d.stiffeners.now) };

    ghost sound = { λ d. record { law = B.RuleBook.law d.book.now; plates = P.Stock.ranged d.plates.now; stiffeners = S.Stock.ranged d.stiffeners.now } };

    ghost lenders = { λ d. d.book.ghost_name ∷ d.plates.ghost_name ∷ d.stiffeners.ghost_name ∷ [] };

    fn fits(&mut self, hull: Hull, line: Entry) -> bool {
        self.book.fits(hull, line)
    }

    fn own_size(&mut self, hull: Hull, line: Entry) -> u16 {
        self.book.own_size(hull, line)
    }

    fn pull(&mut self, hull: Hull, line: Entry, neighbour: Entry, size: u16) -> u16 {
        self.book.pull(hull, line, neighbour, size)
    }

    // Plates and stiffeners have stocks of two types, so that each question chooses between them.
    fn is_stocked(&mut self, hull: Hull, line: Entry, size: u16) -> bool {
        if self.book.is_plate(hull, line) {
            self.plates.holds(size)
        } else {
            self.stiffeners.holds(size)
        }
    }

    fn next_size(&mut self, hull: Hull, line: Entry, floor: u16) -> Option<u16> {
        if self.book.is_plate(hull, line) {
            self.plates.at_least(floor)
        } else {
            self.stiffeners.at_least(floor)
        }
    }
}
