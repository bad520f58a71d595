//! The limits within which a hull and the values of a line are accepted.
ghost use Rattle.std.specs.Prelude.{◌≡◌};
ghost use Rattle.terms.specs.Questions.{first_no, hull_questions, refused_at, keeps_limits, value_questions};

use crate::entry::Entry;
use crate::ground::Ground;
use crate::hull::Hull;
use crate::refusal::Refusal;

/// The largest size.
pub const LARGEST_SIZE: u16 = 60_000;

/// The most lines of a sheet.
pub const MOST_LINES: usize = 96;

impl Hull {
    /// Refused at 0 on the first ground on which a hull is.
    pub fn check_limits(self) -> Result<(), Refusal>
        ensures { result ≡ refused_at 0 (first_no (hull_questions self)) }
    {
        if !(5_000..=19_999).contains(&self.length) {
            Err(Ground::LengthOutOfRange.at(0))
        } else if !(1_000..=8_000).contains(&self.breadth) {
            Err(Ground::BreadthOutOfRange.at(0))
        } else if !(400..=4_000).contains(&self.depth) {
            Err(Ground::DepthOutOfRange.at(0))
            // by comparison, since with a range that ends at the depth the proof did not close
        } else if self.draught < 100 || self.draught > self.depth {
            Err(Ground::DraughtOutOfRange.at(0))
        } else if self.water > 1 {
            Err(Ground::WaterUnknown.at(0))
        } else {
            Ok(())
        }
    }
}

impl Entry {
    // Whether each of the other values is at most its limit.
    fn is_within_limits(self) -> bool
        ensures { result ≡ keeps_limits self }
    {
        self.spacing <= 1_000
            && self.span <= 5_000
            && self.height <= 4_000
            && self.pressure <= 100
            && self.strength <= 500
            && self.area <= 10_000
    }

    /// Refused at its mark on the first ground on which the entered values of a line are, whatever its mark.
    pub fn check_limits(self) -> Result<(), Refusal>
        ensures { result ≡ refused_at self.mark (first_no (value_questions self)) }
    {
        let at = usize::from(self.mark);
        if self.place > 2 {
            Err(Ground::PlaceUnknown.at(at))
        } else if self.names(self.mark) {
            Err(Ground::NeighbourIsItself.at(at))
        } else if !self.is_within_limits() {
            Err(Ground::ValueOverLimit.at(at))
        } else {
            Ok(())
        }
    }
}
