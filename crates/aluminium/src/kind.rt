//! The members of an aluminium boat, and their numbers.
ghost use Rattle.std.specs.Prelude.{◌≡◌};
ghost use Rattle.clauses.specs.Kinds.{Named};
ghost use Rattle.aluminium.specs.Kinds.{number_of, Unnamed};

use clauses::kind::UnknownKind;

/// Which member a line is. The number is the case's value.
#[derive(Clone, Copy, PartialEq, Eq, Debug)]
pub enum Kind {
    // panels of plating
    Bottom = 41,
    Side = 42,
    Deck = 43,
    Wall = 44,
    CollisionOrTankBulkhead = 45,
    WatertightBulkhead = 46,
    // plating without a formula
    KeelPlate = 47,
    // stiffeners
    BottomLongitudinal = 51,
    BottomTransverse = 52,
    SideLongitudinal = 53,
    SideTransverse = 54,
    DeckLongitudinal = 55,
    DeckTransverse = 56,
    WallStiffener = 57,
    CollisionOrTankBulkheadStiffener = 58,
    WatertightBulkheadStiffener = 59,
}

// The conversions are alike in the three books, and stand in each: a macro of our own may write no impl. This one fixes the values of the cases.
/// The number by which a line names the kind.
impl From<Kind> for u8 {
    ghost from_gives = { λ kind n. n ≡ number_of kind };

    fn from(kind: Kind) -> u8 {
        kind as u8
    }
}

impl TryFrom<u8> for Kind {
    type Error = UnknownKind;

    ghost try_from_gives = { Named number_of Unnamed };

    fn try_from(number: u8) -> Result<Kind, UnknownKind> {
        match number {
            41 => Ok(Kind::Bottom),
            42 => Ok(Kind::Side),
            43 => Ok(Kind::Deck),
            44 => Ok(Kind::Wall),
            45 => Ok(Kind::CollisionOrTankBulkhead),
            46 => Ok(Kind::WatertightBulkhead),
            47 => Ok(Kind::KeelPlate),
            51 => Ok(Kind::BottomLongitudinal),
            52 => Ok(Kind::BottomTransverse),
            53 => Ok(Kind::SideLongitudinal),
            54 => Ok(Kind::SideTransverse),
            55 => Ok(Kind::DeckLongitudinal),
            56 => Ok(Kind::DeckTransverse),
            57 => Ok(Kind::WallStiffener),
            58 => Ok(Kind::CollisionOrTankBulkheadStiffener),
            59 => Ok(Kind::WatertightBulkheadStiffener),
            _ => Err(UnknownKind(number)),
        }
    }
}
