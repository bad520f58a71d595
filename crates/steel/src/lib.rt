//! The rule book for steel small craft.
#![tactic(auto)]

ghost use Rattle.std.specs.Prelude.{◌≡◌};
ghost use Rattle.steel.specs.Steel.{steel, steel_law, clauses, rising, proportioned};

use crate::kind::Kind;
use clauses::book::{ByClauses, Clauses};
use clauses::panel::{bending_of, is_spanned};
use clauses::rounding::{divided_up, percentage};
use terms::book::RuleBook;
use terms::entry::Entry;
use terms::hull::Hull;

pub mod kind;

/// The rules for steel small craft.
#[derive(Clone, Copy)]
pub struct Steel;

// The breadth and the length against the depth.
fn is_proportioned(hull: Hull) -> bool
    ensures { result ≡ proportioned hull }
{
    let depth = u32::from(hull.depth);
    2 * u32::from(hull.breadth) <= 9 * depth && u32::from(hull.length) <= 30 * depth
}

impl Clauses for Steel {
    const NUMBER: u8 = 1;

    ghost clauses = { clauses };

    ghost rising = { rising };

    fn fits(hull: Hull, line: Entry) -> bool {
        is_proportioned(hull)
            && Kind::try_from(line.kind).is_ok()
            && (!Steel::is_stiffener(line) || is_spanned(line))
    }

    fn is_stiffener(line: Entry) -> bool {
        matches!(
            Kind::try_from(line.kind),
            Ok(Kind::WallStiffener | Kind::InnerWallStiffener)
        )
    }

    fn own(hull: Hull, line: Entry) -> u128 {
        match Kind::try_from(line.kind) {
            Ok(Kind::OuterWall) => 200,
            Ok(Kind::InnerWall) => 150,
            Ok(Kind::WallStiffener) => divided_up(bending_of(3, line), 10_000_000),
            Ok(Kind::InnerWallStiffener) => divided_up(bending_of(12, line), 50_000_000),
            _ => 0,
        }
    }

    fn pull(line: Entry, neighbour: Entry, size: u16) -> u128 {
        match (Kind::try_from(line.kind), Kind::try_from(neighbour.kind)) {
            (Ok(Kind::SidePlate), Ok(Kind::WatertightBulkhead))
            | (Ok(Kind::WatertightBulkhead), Ok(Kind::SidePlate)) => u128::from(size),
            (Ok(Kind::CollisionBulkhead), Ok(Kind::WatertightBulkhead)) => u128::from(size) + 100,
            (Ok(Kind::SponsonClosingPlate), Ok(Kind::SidePlate)) => percentage(80, size),
            _ => 0,
        }
    }
}

// Alike in the three books, and stands in each: `clauses` may not write it for every book, since the trait is of `terms`, and a macro of our own may write no impl.
/// Each question is answered by the rule book that the clauses make.
impl RuleBook for Steel {
    const NUMBER: u8 = <Steel as Clauses>::NUMBER;

    ghost meaning = { λ _. steel };

    ghost law = { λ _. steel_law };

    fn fits(&mut self, hull: Hull, line: Entry) -> bool {
        ByClauses(*self).fits(hull, line)
    }

    fn is_plate(&mut self, hull: Hull, line: Entry) -> bool {
        ByClauses(*self).is_plate(hull, line)
    }

    fn own_size(&mut self, hull: Hull, line: Entry) -> u16 {
        ByClauses(*self).own_size(hull, line)
    }

    fn pull(&mut self, hull: Hull, line: Entry, neighbour: Entry, size: u16) -> u16 {
        ByClauses(*self).pull(hull, line, neighbour, size)
    }
}
