//! The grounds of refusal, each with its number.
ghost use Rattle.std.specs.Prelude.{◌≡◌};
ghost use Rattle.terms.specs.Grounds.{Numbers};
ghost use Rattle.terms.specs.Questions.{refusal_of};

use crate::refusal::Refusal;

/// Why a call is refused. The number is the case's value.
#[derive(Clone, Copy, PartialEq, Eq, Debug)]
pub enum Ground {
    /// the hull's length is not from 5,000 to 19,999
    LengthOutOfRange = 11,
    /// the hull's breadth is not from 1,000 to 8,000
    BreadthOutOfRange = 12,
    /// the hull's depth is not from 400 to 4,000
    DepthOutOfRange = 13,
    /// the hull's draught is not from 100 to the depth
    DraughtOutOfRange = 14,
    /// the water is neither 0 nor 1
    WaterUnknown = 15,
    /// the mark is 0
    MarkZero = 21,
    /// another line has the mark
    MarkTaken = 22,
    /// no line has the mark
    MarkUnknown = 23,
    /// the place is above 2
    PlaceUnknown = 24,
    /// a neighbour's mark is the line's own
    NeighbourIsItself = 25,
    /// another entered value is over its limit
    ValueOverLimit = 26,
    /// no free line is left
    SheetFull = 27,
    /// a size is above 60,000
    SizeOverLimit = 28,
    /// the sheet has no hull
    HullMissing = 31,
    /// a line names a neighbour that is not there
    NeighbourMissing = 32,
    /// a line does not fit the rule book
    LineUnfit = 33,
    /// no schedule is lawful
    NoLawfulSchedule = 34,
    /// the sheet is not settled
    NotSettled = 41,
    /// the caller's rows do not suffice
    TooFewRows = 42,
    /// the caller's bytes do not suffice
    TooFewBytes = 43,
    /// a command byte has no meaning
    CommandUnknown = 51,
    /// a record's hull is not its first command, or not its only hull
    HullOutOfOrder = 52,
    /// a command's operands are cut short
    OperandsCutShort = 53,
    /// bytes stand after the end of a record
    BytesAfterEnd = 54,
    /// a record has no end
    EndMissing = 55,
    /// a build-up has a zero, or its last size is above 60,000
    BuildUpOutOfRange = 61,
    /// a stock row's size is not from 1 to 60,000
    RowSizeOutOfRange = 62,
    /// another stock row has the size
    RowSizeTaken = 63,
    /// no free stock row is left
    RowsFull = 64,
    /// no rule book has the number
    BookUnknown = 65,
    /// the input is above 16,384 bytes
    InputTooLong = 66,
    /// the input is below 13 bytes
    InputTooShort = 67,
}

impl Ground {
    /// The refusal on this ground, at a place.
    pub fn at(self, at: usize) -> Refusal
        ensures { result ≡ refusal_of self at }
    {
        Refusal { ground: self, at }
    }
}

/// The number by which users know the ground.
impl From<Ground> for u8 {
    ghost from_gives = { Numbers };

    fn from(ground: Ground) -> u8 {
        ground as u8
    }
}
