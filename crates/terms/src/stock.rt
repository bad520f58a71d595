//! What is asked of a stock.
ghost use Rattle.std.specs.Prelude.{◌≡◌, ℕ, Bool};
ghost use Rattle.terms.specs.Stocks.{Ranged, AtLeast};

/// The sizes in the store, from 1 to 60,000. No question changes them, which each says for itself, since a trait has no other place for it.
pub trait Stock {
    ghost members: { Self → ℕ → Bool };

    ghost ranged: { (s : Self) → Ranged (members s) };

    /// Whether the size is in stock.
    fn holds(&mut self, size: u16) -> bool
        ensures value { result ≡ members self.old size }
        ensures same { members self.new ≡ members self.old };

    /// The smallest size in stock at or above `floor`; none exactly when there is none.
    fn at_least(&mut self, floor: u16) -> Option<u16>
        ensures value { AtLeast (members self.old) floor result }
        ensures same { members self.new ≡ members self.old };
}
