//! The members of a steel boat, and their numbers.
ghost use Rattle.std.specs.Prelude.{◌≡◌};
ghost use Rattle.clauses.specs.Kinds.{Named};
ghost use Rattle.steel.specs.Kinds.{number_of, Unnamed};

use clauses::kind::UnknownKind;

/// Which member a line is. The number is the case's value.
#[derive(Clone, Copy, PartialEq, Eq, Debug)]
pub enum Kind {
    SidePlate = 1,
    WatertightBulkhead = 2,
    CollisionBulkhead = 3,
    /// an outer wall of a superstructure or a deckhouse
    OuterWall = 4,
    InnerWall = 5,
    /// the plate that closes a sponson, an overhanging side deck, from below
    SponsonClosingPlate = 6,
    WallStiffener = 7,
    InnerWallStiffener = 8,
}

// The conversions are alike in the three books, and stand in each: a macro of our own may write no impl. This one fixes the values of the cases.
/// The number by which a line names the kind.
impl From<Kind> for u8 {
    ghost from_gives = { λ kind n. n ≡ number_of kind };

    fn from(kind: Kind) -> u8 {
        kind as u8
    }
}

impl TryFrom<u8> for Kind {
    type Error = UnknownKind;

    ghost try_from_gives = { Named number_of Unnamed };

    fn try_from(number: u8) -> Result<Kind, UnknownKind> {
        match number {
            1 => Ok(Kind::SidePlate),
            2 => Ok(Kind::WatertightBulkhead),
            3 => Ok(Kind::CollisionBulkhead),
            4 => Ok(Kind::OuterWall),
            5 => Ok(Kind::InnerWall),
            6 => Ok(Kind::SponsonClosingPlate),
            7 => Ok(Kind::WallStiffener),
            8 => Ok(Kind::InnerWallStiffener),
            _ => Err(UnknownKind(number)),
        }
    }
}
