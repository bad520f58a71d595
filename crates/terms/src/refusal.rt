//! A refusal: a ground, and the place where it arose.
ghost use Rattle.std.specs.Prelude.{Some};
ghost use Rattle.terms.specs.Grounds.{refusal_text};

use crate::ground::Ground;
use std::error::Error;
use std::fmt;

/// Why a call was refused, and where: the mark or the offset that the call's document names, or 0.
#[derive(Clone, Copy, PartialEq, Eq, Debug)]
pub struct Refusal {
    pub ground: Ground,
    pub at: usize,
}

impl fmt::Display for Refusal {
    ghost output = { λ r. Some (refusal_text r) };

    fn fmt<W: fmt::Write>(&self, f: &mut fmt::Formatter<W>) -> fmt::Result {
        let number = u8::from(self.ground);
        let at = self.at;
        write!(f, "refused {number} at {at}")
    }
}

impl Error for Refusal {}
