//! Sizes, fits and pulls of the three rule books, worked out apart.
use crate::said::{BOAT, entry};
use aluminium::Aluminium;
use clauses::book::ByClauses;
use plastic::Plastic;
use steel::Steel;
use terms::book::RuleBook;
use terms::entry::Entry;
use terms::hull::Hull;

fn hull(length: u16, breadth: u16) -> Hull {
    Hull {
        length,
        breadth,
        ..BOAT
    }
}

// A line of a kind at a place, with spacing, span and height.
fn line(kind: u8, place: u8, spacing: u16, span: u16, height: u16) -> Entry {
    Entry {
        spacing,
        span,
        pressure: 100,
        height,
        strength: 1,
        ..entry(1, kind, place, 0, 0)
    }
}

#[test]
fn steel_own_sizes(rt: HostRuntime) {
    let hull = hull(10_000, 3_000);
    assert_eq!(rt; Steel.own_size(hull, line(1, 0, 0, 0, 0)), 0);
    assert_eq!(rt; Steel.own_size(hull, line(4, 0, 0, 0, 0)), 200);
    assert_eq!(rt; Steel.own_size(hull, line(7, 0, 600, 2_200, 0)), 872);
    assert_eq!(rt; Steel.own_size(hull, line(8, 0, 500, 2_001, 0)), 481);
}

// The greatest breadth at a depth of 1,500 is 6,750.
#[test]
fn steel_fits(rt: HostRuntime) {
    assert!(rt; Steel.fits(hull(10_000, 6_750), line(1, 0, 0, 0, 0)));
    assert!(rt; !Steel.fits(hull(10_000, 6_751), line(1, 0, 0, 0, 0)));
    assert!(rt; !Steel.fits(hull(10_000, 3_000), line(7, 0, 0, 2_200, 0)));
    assert!(rt; Steel.is_plate(hull(10_000, 3_000), line(7, 0, 0, 2_200, 0)));
    assert!(rt; !Steel.is_plate(hull(10_000, 3_000), line(7, 0, 600, 2_200, 0)));
}

#[test]
fn steel_pulls(rt: HostRuntime) {
    let hull = hull(10_000, 3_000);
    let side = line(1, 0, 0, 0, 0);
    let bulkhead = line(2, 0, 0, 0, 0);
    assert_eq!(rt; Steel.pull(hull, side, bulkhead, 400), 400);
    assert_eq!(rt; Steel.pull(hull, bulkhead, side, 400), 400);
    assert_eq!(rt; Steel.pull(hull, line(3, 0, 0, 0, 0), bulkhead, 0), 100);
    assert_eq!(rt; Steel.pull(hull, line(6, 0, 0, 0, 0), side, 301), 241);
}

#[test]
fn plastic_own_sizes(rt: HostRuntime) {
    let hull = hull(11_999, 3_000);
    assert_eq!(rt; Plastic.own_size(hull, line(21, 0, 0, 0, 0)), 800);
    assert_eq!(rt; Plastic.own_size(hull, line(23, 0, 0, 0, 0)), 950);
    assert_eq!(rt; Plastic.own_size(hull, line(23, 2, 0, 0, 0)), 1_188);
    assert_eq!(rt; Plastic.own_size(hull, line(24, 0, 0, 0, 0)), 710);
    assert_eq!(rt; Plastic.own_size(hull, line(25, 0, 0, 0, 0)), 480);
}

// High above the water half the depth counts, however high.
#[test]
fn plastic_moduli(rt: HostRuntime) {
    let hull = hull(10_000, 3_000);
    assert_eq!(rt; Plastic.own_size(hull, line(30, 2, 500, 2_000, 100)), 9_792);
    assert_eq!(rt; Plastic.own_size(hull, line(31, 2, 500, 2_000, 100)), 9_216);
    assert_eq!(rt;
        Plastic.own_size(hull, line(30, 0, 500, 2_000, 4_000)),
        5_100
    );
}

#[test]
fn plastic_pulls(rt: HostRuntime) {
    let hull = hull(10_000, 3_000);
    let shell = line(21, 0, 0, 0, 0);
    assert_eq!(rt; Plastic.pull(hull, line(27, 0, 0, 0, 0), shell, 801), 681);
    assert_eq!(rt; Plastic.pull(hull, line(28, 0, 0, 0, 0), shell, 801), 641);
    assert_eq!(rt; Plastic.pull(hull, line(29, 0, 0, 0, 0), shell, 801), 401);
    assert_eq!(rt;
        Plastic.pull(hull, line(25, 0, 0, 0, 0), line(23, 2, 0, 0, 0), 870),
        0
    );
    assert_eq!(rt;
        Plastic.pull(hull, line(25, 2, 0, 0, 0), line(23, 0, 0, 0, 0), 870),
        870
    );
}

// The modulus would be 33,750,000 hundredths; an unfit line has none.
#[test]
fn aluminium_ends(rt: HostRuntime) {
    let hull = hull(10_000, 3_000);
    assert_eq!(rt;
        Aluminium.own_size(hull, line(52, 0, 1_000, 5_000, 0)),
        60_001
    );
    assert_eq!(rt; Aluminium.own_size(hull, line(52, 0, 0, 5_000, 0)), 0);
    assert_eq!(rt;
        Aluminium.pull(hull, line(47, 0, 0, 0, 0), line(41, 0, 0, 0, 0), 60_000),
        60_001
    );
}

fn number<B: RuleBook>(book: &B) -> u8 {
    B::NUMBER
}

#[test]
fn numbers(rt: HostRuntime) {
    assert_eq!(rt; number(&Steel), 1);
    assert_eq!(rt; number(&Plastic), 2);
    assert_eq!(rt; number(&Aluminium), 3);
}

// The rule books that the clauses make, without the books.
#[test]
fn by_clauses(rt: HostRuntime) {
    let hull = hull(10_000, 3_000);
    let mut steel = ByClauses(Steel);
    assert_eq!(rt; number(&steel), 1);
    assert!(rt; steel.is_plate(hull, line(7, 0, 0, 2_200, 0)));
    assert_eq!(rt; steel.own_size(hull, line(7, 0, 600, 2_200, 0)), 872);
    let mut plastic = ByClauses(Plastic);
    assert_eq!(rt; number(&plastic), 2);
    assert!(rt; !plastic.fits(hull, line(7, 0, 600, 2_200, 0)));
    assert_eq!(rt; plastic.own_size(hull, line(30, 2, 500, 2_000, 100)), 9_792);
    let mut aluminium = ByClauses(Aluminium);
    assert_eq!(rt; number(&aluminium), 3);
    assert_eq!(rt;
        aluminium.pull(hull, line(47, 0, 0, 0, 0), line(41, 0, 0, 0, 0), 60_000),
        60_001
    );
}
