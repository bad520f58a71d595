//! The members of a reinforced-plastic boat, and their numbers.
ghost use Rattle.std.specs.Prelude.{◌≡◌};
ghost use Rattle.clauses.specs.Kinds.{Named};
ghost use Rattle.plastic.specs.Kinds.{number_of, Unnamed};

use clauses::kind::UnknownKind;

/// Which member a line is. The number is the case's value.
#[derive(Clone, Copy, PartialEq, Eq, Debug)]
pub enum Kind {
    Shell = 21,
    Deck = 22,
    CentreKeelsonWeb = 23,
    SideKeelsonWeb = 24,
    FloorWeb = 25,
    FloorFace = 26,
    InnerBottom = 27,
    Bulwark = 28,
    JoiningAngle = 29,
    /// a floor as a stiffener, its web and face together
    Floor = 30,
    BottomLongitudinal = 31,
}

// The conversions are alike in the three books, and stand in each: a macro of our own may write no impl. This one fixes the values of the cases.
/// The number by which a line names the kind.
impl From<Kind> for u8 {
    ghost from_gives = { λ kind n. n ≡ number_of kind };

    fn from(kind: Kind) -> u8 {
        kind as u8
    }
}

impl TryFrom<u8> for Kind {
    type Error = UnknownKind;

    ghost try_from_gives = { Named number_of Unnamed };

    fn try_from(number: u8) -> Result<Kind, UnknownKind> {
        match number {
            21 => Ok(Kind::Shell),
            22 => Ok(Kind::Deck),
            23 => Ok(Kind::CentreKeelsonWeb),
            24 => Ok(Kind::SideKeelsonWeb),
            25 => Ok(Kind::FloorWeb),
            26 => Ok(Kind::FloorFace),
            27 => Ok(Kind::InnerBottom),
            28 => Ok(Kind::Bulwark),
            29 => Ok(Kind::JoiningAngle),
            30 => Ok(Kind::Floor),
            31 => Ok(Kind::BottomLongitudinal),
            _ => Err(UnknownKind(number)),
        }
    }
}
