//! Sheets that were settled by hand.
use crate::checks::{drawn, rows};
use crate::said::{BOAT, entry, said, used};
use plastic::Plastic;
use runs::back::lay_back;
use runs::perform::perform_all;
use runs::step::Step;
use sheet::call::Call;
use sheet::sheet::Sheet;
use std::test::Fail;
use steel::Steel;
use stocks::build_up::BuildUp;
use stocks::row::Row;
use stocks::rows::Rows;
use terms::refusal::Refusal;

// Side 1, watertight bulkhead 2 that names it, collision bulkhead 3 that names 2, with plates of 300, 400 and 500.
#[test]
fn steel_schedule(rt: HostRuntime) -> Result<(), Fail> {
    let mut memory = [used(); 3];
    let mut sheet = Sheet::new(&mut memory);
    let mut room = [Row::default(); 3];
    let mut plates = Rows::new(&mut room);
    rows(&mut plates)?;
    let mut stiffeners = BuildUp::new(100, 100, 100)?;
    sheet.set_hull(BOAT)?;
    drawn(
        &mut sheet,
        &[
            (entry(1, 1, 0, 0, 0), 0),
            (entry(2, 2, 0, 1, 0), 400),
            (entry(3, 3, 0, 2, 0), 0),
        ],
    )?;
    sheet.settle(&mut Steel, &mut plates, &mut stiffeners)?;
    assert_eq!(rt; sheet.scheduled_size(1)?, 400);
    assert_eq!(rt; sheet.scheduled_size(2)?, 400);
    assert_eq!(rt; sheet.scheduled_size(3)?, 500);
    lay_back(
        &mut sheet,
        &[3, 1, 3],
        &mut Steel,
        &mut plates,
        &mut stiffeners,
    )?;
    assert_eq!(rt; sheet.scheduled_size(1)?, 400);
    assert_eq!(rt; sheet.scheduled_size(3)?, 500);
    sheet.lay(1, 500)?;
    assert_eq!(rt;
        said(sheet.settle(&mut Steel, &mut plates, &mut stiffeners)),
        Err((34, 0))
    );
    Ok(())
}

// Shell 10, deck 20, joining angle 30 beside both; plates of 200, 350, 500 and so on. A stock that ends below them gives 34, and the sheet stays as it was settled.
#[test]
fn plastic_schedule(rt: HostRuntime) -> Result<(), Fail> {
    let mut memory = [used(); 3];
    let mut sheet = Sheet::new(&mut memory);
    let mut plates = BuildUp::new(200, 150, 20)?;
    let mut thin = BuildUp::new(200, 150, 4)?;
    let mut stiffeners = BuildUp::new(100, 100, 100)?;
    sheet.set_hull(BOAT)?;
    drawn(
        &mut sheet,
        &[
            (entry(10, 21, 0, 0, 0), 0),
            (entry(20, 22, 0, 0, 0), 0),
            (entry(30, 29, 0, 10, 20), 0),
        ],
    )?;
    sheet.settle(&mut Plastic, &mut plates, &mut stiffeners)?;
    assert_eq!(rt; sheet.scheduled_size(10)?, 800);
    assert_eq!(rt; sheet.scheduled_size(20)?, 800);
    assert_eq!(rt; sheet.scheduled_size(30)?, 500);
    assert_eq!(rt;
        said(sheet.settle(&mut Plastic, &mut thin, &mut stiffeners)),
        Err((34, 0))
    );
    assert_eq!(rt; sheet.scheduled_size(30)?, 500);
    sheet.lay(10, 1_000)?;
    sheet.settle(&mut Plastic, &mut plates, &mut stiffeners)?;
    assert_eq!(rt; sheet.scheduled_size(10)?, 1_100);
    assert_eq!(rt; sheet.scheduled_size(20)?, 800);
    assert_eq!(rt; sheet.scheduled_size(30)?, 650);
    Ok(())
}

// Sides and watertight bulkheads in turn, each naming the next, so that the size laid on the last goes from neighbour to neighbour to the first.
#[test]
fn a_chain_of_96(rt: HostRuntime) -> Result<(), Fail> {
    let mut memory = [used(); 96];
    let mut sheet = Sheet::new(&mut memory);
    let mut plates = BuildUp::new(100, 100, 600)?;
    let mut stiffeners = BuildUp::new(100, 100, 100)?;
    sheet.set_hull(BOAT)?;
    for mark in 1..97u16 {
        let kind = if mark % 2 == 0 { 2 } else { 1 };
        let next = if mark == 96 { 0 } else { mark + 1 };
        sheet.enter(entry(mark, kind, 0, next, 0))?;
    }
    sheet.lay(96, 750)?;
    sheet.settle(&mut Steel, &mut plates, &mut stiffeners)?;
    for mark in 1..97u16 {
        assert_eq!(rt; sheet.scheduled_size(mark)?, 800);
    }
    sheet.lay(96, 60_000)?;
    sheet.settle(&mut Steel, &mut plates, &mut stiffeners)?;
    assert_eq!(rt; sheet.scheduled_size(1)?, 60_000);
    Ok(())
}

// Settle refused for each of its questions in turn, then accepted; a later change unsettles.
#[test]
fn a_run_of_calls(rt: HostRuntime) -> Result<(), Fail> {
    let mut memory = [used(); 2];
    let mut sheet = Sheet::new(&mut memory);
    let mut plates = BuildUp::new(200, 150, 20)?;
    let mut stiffeners = BuildUp::new(100, 100, 100)?;
    let steps = [
        Step::Settle,
        Step::Change(Call::Hull(BOAT)),
        Step::Change(Call::Enter(entry(5, 27, 0, 6, 0))),
        Step::Settle,
        Step::Change(Call::Enter(entry(6, 99, 0, 0, 0))),
        Step::Settle,
        Step::Change(Call::Amend(entry(6, 21, 0, 0, 0))),
        Step::Change(Call::Strike(7)),
        Step::Settle,
    ];
    let mut answers: [Result<(), Refusal>; 9] = [Ok(()); 9];
    let count = perform_all(
        &mut sheet,
        &steps,
        &mut answers,
        &mut Plastic,
        &mut plates,
        &mut stiffeners,
    );
    assert_eq!(rt; count, 9);
    let expected = [
        Err((31, 0)),
        Ok(()),
        Ok(()),
        Err((32, 5)),
        Ok(()),
        Err((33, 6)),
        Ok(()),
        Err((23, 7)),
        Ok(()),
    ];
    assert_eq!(rt; answers.map(said), expected);
    assert_eq!(rt; sheet.scheduled_size(5)?, 800);
    assert_eq!(rt; sheet.scheduled_size(6)?, 800);
    Ok(())
}
