//! Designs that were judged by hand, by the steel and the plastic book.
use crate::said::{BOAT, Judged, entry, judged, used};
use plastic::Plastic;
use sheet::sheet::Sheet;
use std::test::Fail;
use steel::Steel;
use stocks::build_up::BuildUp;
use stocks::row::Row;
use stocks::rows::Rows;
use terms::entry::Entry;
use trials::{first_passing, sheet_verdict_with};

// Enters lines and lays a size on each.
pub fn drawn(sheet: &mut Sheet<'_>, lines: &[(Entry, u16)]) -> Result<(), Fail> {
    for (entry, size) in lines {
        sheet.enter(*entry)?;
        sheet.lay(entry.mark, *size)?;
    }
    Ok(())
}

// Rows of 300, 400 and 500.
pub fn rows(plates: &mut Rows<'_>) -> Result<(), Fail> {
    for size in [300, 400, 500] {
        plates.add(Row { size, article: 1 })?;
    }
    Ok(())
}

// Side 1, watertight bulkhead 2 that names it, collision bulkhead 3 that names 2, wall stiffener 4 (own size 872); plates in rows of 300, 400 and 500.
fn steel(laid: [u16; 4]) -> Result<Judged, Fail> {
    let mut memory = [used(); 4];
    let mut sheet = Sheet::new(&mut memory);
    sheet.set_hull(BOAT)?;
    drawn(
        &mut sheet,
        &[
            (entry(1, 1, 0, 0, 0), laid[0]),
            (entry(2, 2, 0, 1, 0), laid[1]),
            (entry(3, 3, 0, 2, 0), laid[2]),
            (entry(4, 7, 0, 0, 0), laid[3]),
        ],
    )?;
    let mut room = [Row::default(); 3];
    let mut plates = Rows::new(&mut room);
    rows(&mut plates)?;
    let mut stiffeners = BuildUp::new(100, 100, 100)?;
    Ok(judged(sheet.check(&mut Steel, &mut plates, &mut stiffeners)))
}

#[test]
fn steel_designs(rt: HostRuntime) -> Result<(), Fail> {
    assert_eq!(rt; steel([400, 400, 500, 900])?, Ok(Ok(())));
    assert_eq!(rt; steel([350, 300, 300, 800])?, Ok(Err((1, 1, 0))));
    assert_eq!(rt; steel([400, 300, 300, 800])?, Ok(Err((2, 3, 1))));
    assert_eq!(rt; steel([300, 400, 500, 900])?, Ok(Err((1, 3, 2))));
    assert_eq!(rt; steel([400, 400, 400, 800])?, Ok(Err((3, 3, 2))));
    assert_eq!(rt; steel([400, 400, 500, 800])?, Ok(Err((4, 2, 0))));
    assert_eq!(rt; steel([400, 400, 500, 850])?, Ok(Err((4, 1, 0))));
    Ok(())
}

// Shell 10 (own size 800), deck 20 (700), joining angle 30 beside both; floor web 40 at the engine seat (400) beside the centre keelson 50 (870),
// which names it or is named by it. Plates of 200, 350, 500 and so on to 3,050.
fn plastic(laid: [u16; 5], keelson_names: bool) -> Result<Judged, Fail> {
    let (floor, keelson) = if keelson_names { (0, 40) } else { (50, 0) };
    let mut memory = [used(); 5];
    let mut sheet = Sheet::new(&mut memory);
    sheet.set_hull(BOAT)?;
    drawn(
        &mut sheet,
        &[
            (entry(30, 29, 0, 10, 20), laid[2]),
            (entry(10, 21, 0, 0, 0), laid[0]),
            (entry(20, 22, 0, 0, 0), laid[1]),
            (entry(40, 25, 2, floor, 0), laid[3]),
            (entry(50, 23, 0, 0, keelson), laid[4]),
        ],
    )?;
    let mut plates = BuildUp::new(200, 150, 20)?;
    let mut stiffeners = BuildUp::new(100, 100, 100)?;
    Ok(judged(sheet.check(&mut Plastic, &mut plates, &mut stiffeners)))
}

#[test]
fn plastic_designs(rt: HostRuntime) -> Result<(), Fail> {
    assert_eq!(rt; plastic([800, 800, 500, 950, 950], false)?, Ok(Ok(())));
    assert_eq!(rt;
        plastic([600, 800, 350, 950, 950], false)?,
        Ok(Err((10, 1, 0)))
    );
    assert_eq!(rt;
        plastic([650, 650, 350, 950, 950], false)?,
        Ok(Err((10, 2, 0)))
    );
    assert_eq!(rt;
        plastic([1_100, 1_100, 500, 350, 950], false)?,
        Ok(Err((30, 3, 10)))
    );
    assert_eq!(rt;
        plastic([800, 1_100, 500, 350, 950], false)?,
        Ok(Err((30, 3, 20)))
    );
    assert_eq!(rt;
        plastic([800, 800, 500, 350, 950], false)?,
        Ok(Err((40, 2, 0)))
    );
    assert_eq!(rt;
        plastic([800, 800, 500, 500, 950], false)?,
        Ok(Err((40, 3, 50)))
    );
    assert_eq!(rt;
        plastic([800, 800, 500, 500, 950], true)?,
        Ok(Err((40, 3, 50)))
    );
    assert_eq!(rt;
        plastic([0, 800, 500, 950, 950], false)?,
        Ok(Err((10, 1, 0)))
    );
    Ok(())
}

#[test]
fn refused_checks(rt: HostRuntime) -> Result<(), Fail> {
    let mut memory = [used(); 3];
    let mut sheet = Sheet::new(&mut memory);
    let mut plates = BuildUp::new(200, 150, 20)?;
    let mut stiffeners = BuildUp::new(100, 100, 100)?;
    sheet.enter(entry(7, 77, 0, 0, 0))?;
    sheet.enter(entry(8, 78, 0, 0, 99))?;
    sheet.enter(entry(9, 21, 0, 98, 0))?;
    assert_eq!(rt;
        judged(sheet.check(&mut Plastic, &mut plates, &mut stiffeners)),
        Err((31, 0))
    );
    sheet.set_hull(BOAT)?;
    assert_eq!(rt;
        judged(sheet.check(&mut Plastic, &mut plates, &mut stiffeners)),
        Err((32, 8))
    );
    sheet.amend(entry(8, 78, 0, 0, 0))?;
    assert_eq!(rt;
        judged(sheet.check(&mut Plastic, &mut plates, &mut stiffeners)),
        Err((32, 9))
    );
    sheet.amend(entry(9, 21, 0, 7, 8))?;
    assert_eq!(rt;
        judged(sheet.check(&mut Plastic, &mut plates, &mut stiffeners)),
        Err((33, 7))
    );
    Ok(())
}

// The joining angle 30 beside the shell 10 needs half the shell: 550 beside 1,100.
#[test]
fn tried_sizes(rt: HostRuntime) -> Result<(), Fail> {
    let mut memory = [used(); 2];
    let mut sheet = Sheet::new(&mut memory);
    let mut plates = BuildUp::new(200, 150, 20)?;
    let mut stiffeners = BuildUp::new(100, 100, 100)?;
    sheet.set_hull(BOAT)?;
    drawn(
        &mut sheet,
        &[
            (entry(10, 21, 0, 0, 0), 1_100),
            (entry(30, 29, 0, 10, 0), 500),
        ],
    )?;
    let first = first_passing(
        &mut sheet,
        &mut Plastic,
        &mut plates,
        &mut stiffeners,
        30,
        &[350, 600, 650, 800],
    )?;
    assert_eq!(rt; first, Some(650));
    assert_eq!(rt;
        judged(sheet_verdict_with(
            &mut sheet,
            &mut Plastic,
            &mut plates,
            &mut stiffeners,
            10,
            950,
        )),
        Ok(Ok(()))
    );
    assert_eq!(rt;
        judged(sheet_verdict_with(
            &mut sheet,
            &mut Plastic,
            &mut plates,
            &mut stiffeners,
            99,
            60_001,
        )),
        Err((23, 99))
    );
    assert_eq!(rt;
        judged(sheet_verdict_with(
            &mut sheet,
            &mut Plastic,
            &mut plates,
            &mut stiffeners,
            10,
            60_001,
        )),
        Err((28, 10))
    );
    assert_eq!(rt;
        judged(sheet.check(&mut Plastic, &mut plates, &mut stiffeners)),
        Ok(Err((30, 3, 10)))
    );
    Ok(())
}
