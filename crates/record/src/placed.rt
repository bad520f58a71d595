//! What comes out of a record.
use sheet::call::Call;

/// How far a reader has come. A value and no type for each stage, since a reader moves in place, and it is the bytes that decide what stage comes next.
#[derive(Clone, Copy, PartialEq, Eq, Debug)]
pub enum Stage {
    /// nothing has been read: the hull comes first
    BeforeHull,
    /// the hull has been read
    Body,
    /// the end has been read, and nothing stands after it
    Ended,
}

/// A call, with the offset of its command byte in the record.
#[derive(Clone, Copy)]
pub struct Placed {
    pub at: usize,
    pub call: Call,
}
