//! Bending of stiffeners, and panels of plating under pressure.
ghost use Rattle.std.specs.Prelude.{◌≡◌, ◌*◌, ◌^◌, ◌<◌, ◌&&◌, nat_lt};
ghost use Rattle.clauses.specs.Least.{Least};
ghost use Rattle.clauses.specs.Panels.{bending, stands, panel_thickness};

use crate::rounding::END;
use terms::entry::Entry;

/// Whether a line has a spacing and a span.
pub fn is_spanned(line: Entry) -> bool
    ensures { result ≡ (nat_lt 0 line.spacing && nat_lt 0 line.span) }
{
    line.spacing > 0 && line.span > 0
}

/// What a stiffener's section modulus grows with: its factor, its spacing, and its span twice. The bound leaves room for one factor more.
pub fn bending_of(factor: u16, line: Entry) -> u128
    ensures value { result ≡ bending factor line }
    ensures bound { result < 2 ^ 64 }
{
    u128::from(factor) * u128::from(line.spacing) * u128::from(line.span) * u128::from(line.span)
}

/// A panel of plating under pressure.
#[derive(Clone, Copy)]
pub struct Panel {
    /// the factor of the member, k
    pub factor: u16,
    /// the factor of the aspect, C, in thousandths
    pub aspect: u16,
    /// spacing, pressure and strength
    pub line: Entry,
}

impl Panel {
    // A product of three, with its bound.
    fn reach(self) -> u128
        ensures value { result ≡ self.factor * self.line.spacing * self.aspect }
        ensures bound { result < 2 ^ 48 }
    {
        u128::from(self.factor) * u128::from(self.line.spacing) * u128::from(self.aspect)
    }

    // The pressure's side of the inequality.
    fn load(self) -> u128
        ensures { result ≡ (self.factor * self.line.spacing * self.aspect) * (self.factor * self.line.spacing * self.aspect) * self.line.pressure }
    {
        let reach = self.reach();
        reach * reach * u128::from(self.line.pressure)
    }

    // The plate's side of the inequality.
    fn resistance(self, thickness: u16) -> u128
        ensures { result ≡ thickness * thickness * self.line.strength * 10 ^ 10 }
    {
        u128::from(thickness)
            * u128::from(thickness)
            * u128::from(self.line.strength)
            * 10_000_000_000
    }

    /// The least thickness at which the panel stands its pressure, by halving the range that is left.
    pub fn thickness(self) -> u16
        ensures value { result ≡ panel_thickness self.factor self.aspect self.line }
        ensures least { Least 60001 (stands self.factor self.aspect self.line) result }
    {
        let load = self.load();
        // Written out, since the library halves slices and no ranges.
        let mut low = 0;
        let mut high = END;
        while low < high {
            let middle = low + (high - low) / 2;
            if self.resistance(middle) < load {
                low = middle + 1;
            } else {
                high = middle;
            }
        }
        low
    }
}
