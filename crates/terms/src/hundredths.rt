//! A size as users read it, with two decimals.
ghost use Rattle.std.specs.Prelude.{Some};
ghost use Rattle.terms.specs.Decimals.{two_decimals};

use std::fmt;

/// A size in hundredths: of a millimetre for a plate, of a cubic centimetre for a stiffener's modulus.
#[derive(Clone, Copy)]
pub struct Hundredths(pub u16);

#[tactic(auto, using(crate::proofs::Padded::two_decimals_shown))]
impl fmt::Display for Hundredths {
    ghost output = { λ n. Some (two_decimals n.0) };

    fn fmt<W: fmt::Write>(&self, f: &mut fmt::Formatter<W>) -> fmt::Result {
        let whole = self.0 / 100;
        let rest = self.0 % 100;
        write!(f, "{whole}.{rest:02}")
    }
}
