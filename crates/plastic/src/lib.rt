//! The rule book for reinforced-plastic fishing boats.
#![tactic(auto)]

ghost use Rattle.std.specs.Prelude.{◌≡◌, ◌^◌, ◌<◌};
ghost use Rattle.plastic.specs.Plastic.{plastic, plastic_law, clauses, rising, calm, at_engine_seat, near_engine, head, GreaterHead, modulus, keelson};

use crate::kind::Kind;
use clauses::book::{ByClauses, Clauses};
use clauses::panel::{bending_of, is_spanned};
use clauses::rounding::{divided_up, percentage};
use terms::book::RuleBook;
use terms::entry::Entry;
use terms::hull::Hull;

pub mod kind;

/// The rules for reinforced-plastic fishing boats.
#[derive(Clone, Copy)]
pub struct Plastic;

// Water and place are numbers here too, and no kinds of their own: a hull or a line carries them as numbers, and a book only asks for one of them.
fn is_calm(hull: Hull) -> bool
    ensures { result ≡ calm hull }
{
    hull.water == 0
}

fn is_at_engine_seat(line: Entry) -> bool
    ensures { result ≡ at_engine_seat line }
{
    line.place == 2
}

// In the engine room, or at the engine seat.
fn is_near_engine(line: Entry) -> bool
    ensures { result ≡ near_engine line }
{
    line.place == 1 || is_at_engine_seat(line)
}

/// The head of water on a member, in thousandths of a millimetre. High above the water the first of the two heads is
/// negative, and counts as none.
pub fn head_on(hull: Hull, line: Entry) -> u32
    ensures value { result ≡ head hull line }
    ensures greater { GreaterHead hull line result }
    ensures bound { result < 2 ^ 27 }
{
    let surface = 1_000 * u32::from(hull.draught) + 26 * u32::from(hull.length);
    let over = surface.saturating_sub(1_000 * u32::from(line.height));
    over.max(500 * u32::from(hull.depth))
}

// A stiffener's modulus under its head of water.
fn modulus_of(factor: u16, hull: Hull, line: Entry) -> u128
    ensures { result ≡ modulus factor hull line }
{
    divided_up(
        bending_of(factor, line) * u128::from(head_on(hull, line)),
        10_000_000_000_000,
    )
}

// The web of the centre keelson.
fn keelson_web(hull: Hull, divisor: u8) -> u128
    ensures { result ≡ keelson divisor hull }
{
    divided_up(u128::from(hull.length) + 11_750, u128::from(divisor))
}

impl Clauses for Plastic {
    const NUMBER: u8 = 2;

    ghost clauses = { clauses };

    ghost rising = { rising };

    fn fits(hull: Hull, line: Entry) -> bool {
        (7_000..12_000).contains(&hull.length)
            && Kind::try_from(line.kind).is_ok()
            && (!Plastic::is_stiffener(line) || is_spanned(line))
    }

    fn is_stiffener(line: Entry) -> bool {
        matches!(
            Kind::try_from(line.kind),
            Ok(Kind::Floor | Kind::BottomLongitudinal)
        )
    }

    fn own(hull: Hull, line: Entry) -> u128 {
        match Kind::try_from(line.kind) {
            Ok(Kind::Shell) if is_calm(hull) => 600,
            Ok(Kind::Shell) => 800,
            Ok(Kind::Deck) if is_calm(hull) => 500,
            Ok(Kind::Deck) => 700,
            Ok(Kind::CentreKeelsonWeb) if is_near_engine(line) => keelson_web(hull, 20),
            Ok(Kind::CentreKeelsonWeb) => keelson_web(hull, 25),
            Ok(Kind::SideKeelsonWeb) if is_near_engine(line) => keelson_web(hull, 25),
            Ok(Kind::SideKeelsonWeb) => divided_up(3 * u128::from(hull.length) + 35_000, 100),
            Ok(Kind::FloorWeb) => divided_up(u128::from(hull.length), 25).max(400),
            Ok(Kind::Floor) if is_at_engine_seat(line) => modulus_of(51, hull, line),
            Ok(Kind::Floor) => modulus_of(34, hull, line),
            Ok(Kind::BottomLongitudinal) => modulus_of(48, hull, line),
            _ => 0,
        }
    }

    fn pull(line: Entry, neighbour: Entry, size: u16) -> u128 {
        let whole = u128::from(size);
        match (Kind::try_from(line.kind), Kind::try_from(neighbour.kind)) {
            (Ok(Kind::FloorWeb), Ok(Kind::CentreKeelsonWeb)) if is_at_engine_seat(line) => whole,
            (Ok(Kind::FloorFace), Ok(Kind::FloorWeb)) => whole,
            (Ok(Kind::InnerBottom), Ok(Kind::Shell)) => percentage(85, size),
            (Ok(Kind::Bulwark), Ok(Kind::Shell)) => percentage(80, size),
            (Ok(Kind::JoiningAngle), Ok(Kind::Shell | Kind::Deck)) => divided_up(whole, 2),
            _ => 0,
        }
    }
}

// Alike in the three books, and stands in each: `clauses` may not write it for every book, since the trait is of `terms`, and a macro of our own may write no impl.
/// Each question is answered by the rule book that the clauses make.
impl RuleBook for Plastic {
    const NUMBER: u8 = <Plastic as Clauses>::NUMBER;

    ghost meaning = { λ _. plastic };

    ghost law = { λ _. plastic_law };

    fn fits(&mut self, hull: Hull, line: Entry) -> bool {
        ByClauses(*self).fits(hull, line)
    }

    fn is_plate(&mut self, hull: Hull, line: Entry) -> bool {
        ByClauses(*self).is_plate(hull, line)
    }

    fn own_size(&mut self, hull: Hull, line: Entry) -> u16 {
        ByClauses(*self).own_size(hull, line)
    }

    fn pull(&mut self, hull: Hull, line: Entry, neighbour: Entry, size: u16) -> u16 {
        ByClauses(*self).pull(hull, line, neighbour, size)
    }
}
