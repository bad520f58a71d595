//! The rule book for aluminium fast craft.
#![tactic(auto)]

ghost use Rattle.std.specs.Prelude.{◌≡◌, ◌*◌, ◌^◌, max};
ghost use Rattle.clauses.specs.Panels.{bending, panel_thickness};
ghost use Rattle.clauses.specs.Rounding.{divided_up};
ghost use Rattle.aluminium.specs.Aluminium.{aluminium, aluminium_law, clauses, rising, aspect};

use crate::kind::Kind;
use clauses::book::{ByClauses, Clauses};
use clauses::panel::{Panel, bending_of, is_spanned};
use clauses::rounding::divided_up;
use terms::book::RuleBook;
use terms::entry::Entry;
use terms::hull::Hull;

pub mod kind;

/// The rules for aluminium fast craft.
#[derive(Clone, Copy)]
pub struct Aluminium;

// A square panel is stiffer than a long one: the factor of its aspect, in thousandths.
fn factor_of_aspect(line: Entry) -> u16
    ensures { result ≡ aspect line }
{
    let short = u128::from(line.spacing);
    let long = u128::from(line.span);
    if 2 * short <= long {
        1_000
    } else {
        divided_up((1_080 * long).saturating_sub(160 * short), long) as u16
    }
}

// The thickness of a panel under its pressure, and never below 2 mm. The factor is in tenths.
fn thickness_of(factor: u16, line: Entry) -> u128
    ensures { result ≡ max (panel_thickness factor (aspect line) line) 200 }
{
    let panel = Panel {
        factor,
        aspect: factor_of_aspect(line),
        line,
    };
    u128::from(panel.thickness()).max(200)
}

// The modulus of a stiffener.
fn modulus_of(factor: u16, line: Entry) -> u128
    ensures { result ≡ divided_up (bending factor line * line.pressure) (10 ^ 7 * line.strength) }
{
    divided_up(
        bending_of(factor, line) * u128::from(line.pressure),
        10_000_000 * u128::from(line.strength),
    )
}

impl Clauses for Aluminium {
    const NUMBER: u8 = 3;

    ghost clauses = { clauses };

    ghost rising = { rising };

    fn fits(hull: Hull, line: Entry) -> bool {
        match Kind::try_from(line.kind) {
            Ok(Kind::KeelPlate) => true,
            Ok(_) if Aluminium::is_stiffener(line) => is_spanned(line) && line.strength > 0,
            Ok(_) => line.spacing > 0 && line.spacing <= line.span && line.strength > 0,
            Err(_) => false,
        }
    }

    fn is_stiffener(line: Entry) -> bool {
        matches!(
            Kind::try_from(line.kind),
            Ok(
                Kind::BottomLongitudinal
                    | Kind::BottomTransverse
                    | Kind::SideLongitudinal
                    | Kind::SideTransverse
                    | Kind::DeckLongitudinal
                    | Kind::DeckTransverse
                    | Kind::WallStiffener
                    | Kind::CollisionOrTankBulkheadStiffener
                    | Kind::WatertightBulkheadStiffener
            )
        )
    }

    fn own(hull: Hull, line: Entry) -> u128 {
        match Kind::try_from(line.kind) {
            Ok(Kind::Bottom) => thickness_of(250, line),
            Ok(Kind::Side | Kind::Wall | Kind::CollisionOrTankBulkhead) => thickness_of(258, line),
            Ok(Kind::Deck) => thickness_of(278, line),
            Ok(Kind::WatertightBulkhead) => thickness_of(224, line),
            Ok(Kind::KeelPlate) => 200,
            Ok(Kind::BottomLongitudinal) => modulus_of(115, line),
            Ok(Kind::BottomTransverse) => modulus_of(135, line),
            Ok(Kind::SideLongitudinal | Kind::DeckLongitudinal) => modulus_of(130, line),
            Ok(Kind::SideTransverse | Kind::DeckTransverse | Kind::WallStiffener) => {
                modulus_of(150, line)
            }
            Ok(Kind::CollisionOrTankBulkheadStiffener) => modulus_of(130, line),
            Ok(Kind::WatertightBulkheadStiffener) => modulus_of(120, line),
            Err(_) => 0,
        }
    }

    fn pull(line: Entry, neighbour: Entry, size: u16) -> u128 {
        match (Kind::try_from(line.kind), Kind::try_from(neighbour.kind)) {
            (Ok(Kind::KeelPlate), Ok(Kind::Bottom)) => u128::from(size) + 100,
            _ => 0,
        }
    }
}

// Alike in the three books, and stands in each: `clauses` may not write it for every book, since the trait is of `terms`, and a macro of our own may write no impl.
/// Each question is answered by the rule book that the clauses make.
impl RuleBook for Aluminium {
    const NUMBER: u8 = <Aluminium as Clauses>::NUMBER;

    ghost meaning = { λ _. aluminium };

    ghost law = { λ _. aluminium_law };

    fn fits(&mut self, hull: Hull, line: Entry) -> bool {
        ByClauses(*self).fits(hull, line)
    }

    fn is_plate(&mut self, hull: Hull, line: Entry) -> bool {
        ByClauses(*self).is_plate(hull, line)
    }

    fn own_size(&mut self, hull: Hull, line: Entry) -> u16 {
        ByClauses(*self).own_size(hull, line)
    }

    fn pull(&mut self, hull: Hull, line: Entry, neighbour: Entry, size: u16) -> u16 {
        ByClauses(*self).pull(hull, line, neighbour, size)
    }
}
