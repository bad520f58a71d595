//! What a check finds.
ghost use Rattle.std.specs.Prelude.{◌≡◌};
ghost use Rattle.design.specs.Verdicts.{shortfall_number};

/// Why a laid size fails. The number is the case's value.
#[derive(Clone, Copy, PartialEq, Eq, Debug)]
pub enum Shortfall {
    /// the size is not in the line's stock
    NotInStock = 1,
    /// the size is below the line's own size
    BelowOwnSize = 2,
    /// the size is below the pull of a touching line
    BelowPull = 3,
}

/// The number by which users know the ground.
impl From<Shortfall> for u8 {
    ghost from_gives = { λ shortfall n. n ≡ shortfall_number shortfall };

    fn from(shortfall: Shortfall) -> u8 {
        shortfall as u8
    }
}

/// The line that fails, why, and the mark of the line whose pull it falls below.
#[derive(Clone, Copy, PartialEq, Eq, Debug)]
pub struct Failure {
    pub mark: u16,
    pub ground: Shortfall,
    /// 0 for none, as users are told it: a mark is above 0
    pub neighbour: u16,
}

/// What is said of a design: that the laid sizes are a lawful schedule, or the first failure, lines by rising mark, grounds in their order, neighbours by
/// rising mark.
pub type Verdict = Result<(), Failure>;
